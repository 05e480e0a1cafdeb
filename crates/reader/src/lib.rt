// The reader: a stored number of a 58, and a value.
// An `as` is proved to lose nothing; where one stands, std has no From between the two types, and `try_from` would ask for an answer to an error that cannot be.
#![tactic(auto)]

ghost use Rattle.std.specs.Prelude.{◌≡◌, ◌≤◌, ◌<◌, length, drop, [], ◌∷◌};
ghost use Rattle.laws.specs.Choice.{pick};
ghost use Rattle.parts.specs.Parts.{parts_of};
ghost use Rattle.parts.specs.Scan.{first_of};
ghost use Rattle.reader.specs.Reader.{read_in, read_of, replied, whole, paper, paper_number, stored_number, value_of, sets_from, number_from, value_from};
ghost use Rattle.reader.specs.Find.{data_of, span_of, read_at, value_at};

use exact::exact_f64;
use judge::{Reply, bare_reply, judge};
use layout::{field_start, field_width, fields_of, numbers_of};
use parts::{Extent, case_in, count_in, line_start, next_set};
use real::{Number, RealFault, real_field};

// A stored number: the first and the past byte of its own columns, its sign, its coefficient, and its scale by whether it is
// below zero and its size.
#[derive(Clone, Copy)]
pub struct Stored {
    pub first: usize,
    pub past: usize,
    pub minus: bool,
    pub coefficient: u64,
    pub below: bool,
    pub scale: u16,
}

// The numbers of a value, by its kind; `At`: with its abscissa, which comes first.
#[derive(Clone, Copy)]
pub enum Numbers {
    Real(f64),
    Complex(f64, f64),
    RealAt(f64, f64),
    ComplexAt(f64, f64, f64),
}

// Where a 58 has its numbers: the first byte of its lines, that of its closing delimiter, its case, and how many values it has.
#[derive(Clone, Copy)]
pub struct Data {
    pub body: usize,
    pub closing: usize,
    pub case: usize,
    pub count: u32,
}

// The first and the past byte of a number's columns.
#[derive(Clone, Copy)]
pub struct Span {
    pub first: usize,
    pub past: usize,
}

// Where a set stands, counted from 0.
fn find_set(file: &[u8], k: u32) -> Option<Extent>
    ensures { result ≡ first_of (drop k (parts_of file.now)) }
{
    let mut at = 0;
    let mut before = 0;
    for _ in 0..k {
        let e = next_set(file, at, before)?;
        at = e.past;
        before = e.through;
    }
    next_set(file, at, before)
}

// Where the numbers of a set are, counted from 1; nowhere if there is no such set, or it is no 58.
pub fn find_data(file: &[u8], set: u32) -> Option<Data>
    ensures { result ≡ data_of (sets_from file.now set) }
{
    let e = find_set(file, set.checked_sub(1)?)?;
    if e.number != 58 {
        return None;
    }
    let body = e.body;
    let closing = e.closing;
    let case = case_in(file, body, closing);
    if 8 <= case {
        return None;
    }
    let count = count_in(file, body, closing);
    Some(Data {
        body,
        closing,
        case,
        count,
    })
}

// Where the columns of stored number j are.
fn span_of(file: &[u8], d: Data, j: usize) -> Span
    requires { (d.body ≤ length file.now) × ((d.case < 8) × (j < 17179869184)) }
    ensures { result ≡ span_of file.now d j }
{
    let n = fields_of(d.case);
    let line = line_start(file, d.body, d.closing, record_table::HEADER_LINES + j / n);
    let field = j % n;
    let first = line + field_start(d.case, field);
    Span {
        first,
        past: first + field_width(d.case, field),
    }
}

// What stands in these columns; no number where the file ends before them.
pub fn read_in(file: &[u8], first: usize, past: usize) -> Result<Number, RealFault>
    requires { first ≤ past }
    ensures { result ≡ read_in file.now first past }
{
    if file.len() < past {
        return Err(RealFault::Malformed);
    }
    real_field(&file[first..past])
}

// A stored number of an accepted file; 18 where there is none.
fn number_from(file: &[u8], set: u32, index: u32) -> Result<Stored, Reply>
    ensures { paper_number result ≡ number_from file.now (sets_from file.now set) index }
{
    let Some(d) = find_data(file, set) else {
        return Err(bare_reply(18, 0));
    };
    let j = index as usize;
    let stored = (d.count as usize) * numbers_of(d.case);
    if stored <= j {
        return Err(bare_reply(18, 0));
    }
    let s = span_of(file, d, j);
    let Ok(n) = read_in(file, s.first, s.past) else {
        return Err(bare_reply(18, 0));
    };
    Ok(Stored {
        first: s.first,
        past: s.past,
        minus: n.minus,
        coefficient: n.coefficient,
        below: n.below,
        scale: n.scale,
    })
}

// A stored number by its set, counted from 1, and its index, counted from 0; else the refusal.
pub fn number(file: &[u8], set: u32, index: u32) -> Result<Stored, Reply>
    ensures { paper_number result ≡ stored_number file.now set index }
{
    let r = judge(file);
    if 0 < r.number {
        return Err(r);
    }
    number_from(file, set, index)
}

// The f64 of what stands in a number's columns, or the number of its refusal.
pub fn read_of(x: Result<Number, RealFault>) -> Result<f64, u8>
    ensures { result ≡ read_of x }
{
    let Ok(n) = x else {
        return Err(18);
    };
    exact_f64(n.minus, n.coefficient, n.below, n.scale).ok_or(21)
}

// The f64 of stored number j.
fn read_at(file: &[u8], d: Data, j: usize) -> Result<f64, u8>
    requires { (d.body ≤ length file.now) × ((d.case < 8) × (j < 17179869184)) }
    ensures { result ≡ read_at file.now d j }
{
    let s = span_of(file, d, j);
    read_of(read_in(file, s.first, s.past))
}

// The same with the reply of its refusal.
fn replied(a: Result<f64, u8>) -> Result<f64, Reply>
    ensures { result ≡ replied a }
{
    a.map_err(|n| bare_reply(n, 0))
}

// A function for each kind of value: they make different kinds of `Numbers`, and one over a slice would have to count it to know which.
// A value of one number.
fn one(a: Result<f64, u8>) -> Result<Numbers, Reply>
    ensures { paper result ≡ whole 1 [] (a ∷ []) }
{
    let x = replied(a)?;
    Ok(Numbers::Real(x))
}

// A value of two numbers: a complex pair, or an abscissa and a real.
fn two(uneven: bool, a: Result<f64, u8>, b: Result<f64, u8>) -> Result<Numbers, Reply>
    ensures { paper result ≡ whole (pick uneven 3 2) [] (a ∷ b ∷ []) }
{
    let x = replied(a)?;
    let y = replied(b)?;
    if uneven {
        return Ok(Numbers::RealAt(x, y));
    }
    Ok(Numbers::Complex(x, y))
}

// A value of three numbers: an abscissa and a complex pair.
fn three(a: Result<f64, u8>, b: Result<f64, u8>, c: Result<f64, u8>) -> Result<Numbers, Reply>
    ensures { paper result ≡ whole 4 [] (a ∷ b ∷ c ∷ []) }
{
    let at = replied(a)?;
    let x = replied(b)?;
    let y = replied(c)?;
    Ok(Numbers::ComplexAt(at, x, y))
}

// Value i, by its numbers.
fn value_at(file: &[u8], d: Data, i: u32) -> Result<Numbers, Reply>
    requires { (d.body ≤ length file.now) × (d.case < 8) }
    ensures { paper result ≡ value_at file.now d i }
{
    let k = numbers_of(d.case);
    let j = (i as usize) * k;
    let a = read_at(file, d, j);
    if k == 1 {
        return one(a);
    }
    let b = read_at(file, d, j + 1);
    if k == 2 {
        return two(d.case % 2 == 1, a, b);
    }
    three(a, b, read_at(file, d, j + 2))
}

// A value of an accepted file.
fn value_from(file: &[u8], set: u32, index: u32) -> Result<Numbers, Reply>
    ensures { paper result ≡ value_from file.now (sets_from file.now set) index }
{
    let Some(d) = find_data(file, set) else {
        return Err(bare_reply(18, 0));
    };
    if d.count <= index {
        return Err(bare_reply(18, 0));
    }
    value_at(file, d, index)
}

// A value by its set, counted from 1, and its index, counted from 0; else the refusal.
pub fn value(file: &[u8], set: u32, index: u32) -> Result<Numbers, Reply>
    ensures { paper result ≡ value_of file.now set index }
{
    let r = judge(file);
    if 0 < r.number {
        return Err(r);
    }
    value_from(file, set, index)
}
