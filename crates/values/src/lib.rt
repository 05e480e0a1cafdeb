// All values of a 58 at once.
// An `as` is proved to lose nothing; where one stands, std has no From between the two types, and `try_from` would ask for an answer to an error that cannot be.
#![tactic(auto)]

ghost use Rattle.std.specs.Prelude.{◌≡◌, ℕ, ◌⊎◌, ◌+◌, ◌≤◌, ◌<◌, min, length, drop, IfSome};
ghost use Rattle.real.specs.Real.{real_of};
ghost use Rattle.reader.specs.Reader.{read_of, reads};
ghost use Rattle.reader.specs.Find.{real_at};
ghost use Rattle.values.specs.Values.{all_reply, all_places};
ghost use Rattle.values.specs.Spot.{spot, spot_of, AtSpot};
ghost use Rattle.laws.specs.Cut.{line_len};
ghost use Rattle.layout.specs.Layout.{layout_of, fields_of};
ghost use Rattle.usual_values.specs.Usual.{UsualField};
ghost use Rattle.usual_values.specs.Number.{PowersTo, UsualRead};
ghost use Rattle.values.specs.Scale.{RealColumns, point_in, exponent_in, size_of, most_size};
ghost use Rattle.values.specs.Accepted.{AllReal};
ghost use Rattle.values.specs.Fill.{refusal_of, refusal_in, pattern_or, patterns_put};
ghost use Rattle.values.specs.Lines.{field, Told, TablesFor, Ready, UsualLine, UsualTurn, FilledTo};

use judge::Reply;
use parts::line_start;
use reader::{Data, find_data, read_of};
use usual_columns::{Exponent, Tables, passes, put_tables};

// Where a stored number is: the first byte of its line, its field, and the first byte of its columns.
#[derive(Clone, Copy)]
pub struct Spot {
    pub line: usize,
    pub field: usize,
    pub first: usize,
}

// A stored number, from 0, and where it is.
#[derive(Clone, Copy)]
pub struct Turn {
    pub number: usize,
    pub spot: Spot,
}

// How the numbers of a set are read: the set, where the first is, how many there are, how many fields a line has and their widths, the powers of ten, and
// where lines are tried by them the tables of the usual spelling, with how many columns their fields have together.
#[derive(Clone, Copy)]
pub struct Plan {
    pub set: Data,
    pub first: Spot,
    pub stored: usize,
    pub fields: usize,
    pub widths: [u8; 6],
    pub tens: [f64; 23],
    pub usual: Option<(Tables, usize)>,
}

// The number j, which opens the line that begins at byte `line`.
fn at_line(j: usize, line: usize) -> Turn
    ensures { (result.number ≡ j) × (result.spot ≡ spot line 0 line) }
{
    Turn {
        number: j,
        spot: Spot {
            line,
            field: 0,
            first: line,
        },
    }
}

// Where the first stored number is.
fn first_spot(file: &[u8], d: Data) -> Spot
    requires { d.body ≤ length file.now }
    ensures { (result ≡ spot_of file.now d 0) × (result.line ≤ length file.now) }
{
    let line = line_start(file, d.body, d.closing, record_table::HEADER_LINES);
    Spot {
        line,
        field: 0,
        first: line,
    }
}

// The turn after this one.
fn next_turn(file: &[u8], p: &Plan, t: Turn) -> Turn
    requires { Ready file.now p.now × (AtSpot file.now p.now.set t.number t.spot × (t.number < p.now.stored)) }
    ensures { (result.number ≡ t.number + 1) × AtSpot file.now p.now.set result.number result.spot }
{
    let s = t.spot;
    let number = t.number + 1;
    let field = s.field + 1;
    if field < p.fields {
        let first = s.first + usize::from(p.widths[s.field]);
        return Turn {
            number,
            spot: Spot {
                line: s.line,
                field,
                first,
            },
        };
    }
    let line = line_start(file, s.line, p.set.closing, 1);
    at_line(number, line)
}

// The column that holds the point, the first that does.
fn point_in(s: &[u8]) -> usize
    ensures { result ≡ point_in s.now }
{
    s.iter().take_while(|b| **b != 46).count()
}

// The first column of a real's exponent: the fifth from the end where a letter stands there, otherwise the fourth.
fn exponent_in(s: &[u8]) -> usize
    requires { 5 ≤ length s.now }
    ensures { result ≡ exponent_in s.now }
{
    let fifth = s.len() - 5;
    if real::is_letter(s[fifth]) {
        return fifth;
    }
    fifth + 1
}

// The size of a real's exponent, by the last three columns: a sign and two digits, or three digits.
fn exponent_size(third: u8, second: u8, last: u8) -> usize
    ensures { result ≡ size_of third second last }
{
    let size = usize::from(second % 16) * 10 + usize::from(last % 16);
    if third < 48 {
        return size;
    }
    usize::from(third % 16) * 100 + size
}

// The greatest size of an exponent, of this sign, with which the scale of a real with so many digits after the point is in -22 to 22.
fn most_size(down: bool, after: usize) -> usize
    requires { after ≤ 22 }
    ensures { result ≡ most_size down after }
{
    if down {
        return 22 - after;
    }
    22 + after
}

// The refusal of the real that these columns spell: 21 where its scale, its exponent less its digits after the point, is outside -22 to 22. No digit of its
// coefficient is looked at: there are at most 15.
fn refusal_in(s: &[u8]) -> Result<(), u8>
    requires { RealColumns s.now }
    ensures { Told result (refusal_of (read_of (real_of s.now))) }
{
    let width = s.len();
    let after = exponent_in(s) - point_in(s) - 1;
    let third = s[width - 3];
    let most = most_size((third == 45) | (s[width - 4] == 45), after);
    if most < exponent_size(third, s[width - 2], s[width - 1]) {
        return Err(21);
    }
    Ok(())
}

// The bit pattern of a value; for a refusal what is given instead.
fn pattern_or(a: Result<f64, u8>, instead: u64) -> u64
    ensures { result ≡ pattern_or instead a }
{
    match a {
        Ok(x) => exact::bits(x),
        Err(_) => instead,
    }
}

// The columns of a turn's number.
fn columns_of<'a>(file: &'a [u8], p: &Plan, t: Turn) -> &'a [u8]
    requires ready { Ready file.now p.now × AllReal file.now p.now.set p.now.stored }
    requires at_spot { AtSpot file.now p.now.set t.number t.spot × (t.number < p.now.stored) }
    ensures { RealColumns result.now × (read_of (real_of result.now) ≡ read_of (real_at file.now p.now.set t.number)) }
{
    let first = t.spot.first;
    let past = first + usize::from(p.widths[t.spot.field]);
    &file[first..past]
}

// Puts the bit pattern of a turn's number into its place, which a refusal leaves.
fn put_number(file: &[u8], p: &Plan, t: Turn, out: &mut [u64])
    requires ready { Ready file.now p.now × AllReal file.now p.now.set p.now.stored }
    requires at_spot { AtSpot file.now p.now.set t.number t.spot × ((t.number < p.now.stored) × (p.now.stored ≤ length out.old)) }
    ensures { FilledTo file.now p.now.set t.number (t.number + 1) out.old out.new }
{
    let read = read_of(real::real_field(columns_of(file, p, t)));
    out[t.number] = pattern_or(read, out[t.number]);
}

// The tables for the lines of a set with fields of these widths: those of the usual spelling with the letter of its first number, an exponent's first digit
// being 0. There are none where the set has not four full lines or its first number no letter.
// Not inlined: in one frame with its callers the tables stood there more than once, 256 bytes of stack for `values`.
#[inline(never)]
fn line_tables(
    file: &[u8],
    d: Data,
    widths: &[u8],
    first: Spot,
    stored: usize,
) -> Option<(Tables, usize)>
    requires { (d.case < 8) × ((first.line ≤ length file.now) × (widths.now ≡ (layout_of d.case).widths)) }
    ensures { IfSome result (λ t. TablesFor d t.1 t.0) }
{
    if stored / 4 < widths.len() {
        return None;
    }
    let past = first.line + usize::from(widths[0]);
    if file.len() < past {
        return None;
    }
    let letter = file[past - 4];
    if !real::is_letter(letter) {
        return None;
    }
    let exponent = Exponent { letter, most: 0 };
    Some(put_tables(widths, exponent, 0))
}

// The powers of ten for lines that are tried by tables; where none is, no power is worked out.
fn powers_for(file: &[u8], usual: &Option<(Tables, usize)>) -> [f64; 23]
    ensures { IfSome usual.now (λ _. PowersTo (min (length file.now) 22) result) }
{
    match usual {
        Some(_) => usual_values::powers(file.len()),
        None => usual_values::powers(0),
    }
}

// How this many numbers of a set are read.
fn plan_for(file: &[u8], d: Data, stored: usize) -> Plan
    requires { (d.body ≤ length file.now) × (d.case < 8) }
    ensures { ((result.set ≡ d) × (result.stored ≡ stored)) × (Ready file.now result × AtSpot file.now d 0 result.first) }
{
    let fields = layout::fields_of(d.case);
    let widths = layout::line_widths(d.case);
    let first = first_spot(file, d);
    let usual = line_tables(file, d, &widths[..fields], first, stored);
    Plan {
        set: d,
        first,
        stored,
        fields,
        widths,
        tens: powers_for(file, &usual),
        usual,
    }
}

// The place of the first LF at or after `from`, as `line::find_end` has it; most often it is there.
fn end_from(file: &[u8], from: usize) -> usize
    ensures { result ≡ from + line_len (drop from file.now) }
{
    if file.len() <= from {
        return line::find_end(file, from);
    }
    if file[from] == 10 {
        return from;
    }
    line::find_end(file, from)
}

// The first byte of the line after the one that begins at byte `at`, whose fields are all in the usual spelling; none where it is no such line, or the 80
// bytes from it on are not all in the file.
fn usual_next(file: &[u8], p: &Plan, at: usize) -> Option<usize>
    requires { (at ≤ length file.now) × Ready file.now p.now }
    ensures { IfSome result (λ n. UsualLine file.now p.now.set at n × PowersTo 22 p.now.tens) }
{
    let Some((tables, columns)) = &p.usual else {
        return None;
    };
    if p.set.closing <= at || file.len() < at + 80 || !passes(file, at, tables) {
        return None;
    }
    let end = end_from(file, at + *columns);
    if file.len() <= end {
        return None;
    }
    Some(end + 1)
}

// The turn after the numbers of the usual line that this one opens, where it opens one and all of that line's numbers are the set's.
fn usual_turn(file: &[u8], p: &Plan, t: Turn) -> Option<Turn>
    requires { Ready file.now p.now × (AtSpot file.now p.now.set t.number t.spot × (t.number ≤ p.now.stored)) }
    ensures { IfSome result (λ u. UsualTurn file.now p.now.set p.now.stored t u × PowersTo 22 p.now.tens) }
{
    if 0 < t.spot.field || p.stored - t.number < p.fields {
        return None;
    }
    let line = usual_next(file, p, t.spot.line)?;
    Some(at_line(t.number + p.fields, line))
}

// A call for each width, so that the compiler may lay each out for its own count of digits; one for any width has not been tried.
// The bit pattern of the number in a usual field, which has 13 or 20 columns.
fn field_bits(file: &[u8], at: usize, width: usize, tens: &[f64; 23]) -> u64
    requires fact { (width ≡ 13) ⊎ (width ≡ 20) }
    requires width_in_bounds { (at + width ≤ length file.now) × (UsualField (field file.now at width) × PowersTo 22 tens.now) }
    ensures { UsualRead (field file.now at width) result }
{
    if width == 13 {
        let past = at + 13;
        return usual_values::usual_bits(&file[at..past], tens);
    }
    let past = at + 20;
    usual_values::usual_bits(&file[at..past], tens)
}

// Puts the bit patterns of the numbers of a usual line, which this turn opens, into their places.
fn put_line(file: &[u8], p: &Plan, t: Turn, out: &mut [u64])
    requires ready { Ready file.now p.now × (PowersTo 22 p.now.tens × (t.number + fields_of p.now.set.case ≤ length out.old)) }
    requires at_spot { AtSpot file.now p.now.set t.number (spot t.spot.line 0 t.spot.line) × ((next : ℕ) × UsualLine file.now p.now.set t.spot.line next) }
    ensures { FilledTo file.now p.now.set t.number (t.number + fields_of p.now.set.case) out.old out.new }
{
    let widths = &p.widths[..p.fields];
    let mut at = t.spot.line;
    for (k, width) in widths.iter().enumerate() {
        let width = usize::from(*width);
        out[t.number + k] = field_bits(file, at, width, &p.tens);
        at += width;
    }
}

// The first refusal of a set's numbers, all of them reals; they are only looked at. A `while`, as in `put_all`: a step has one number or
// a line's. Two walks, since nothing may be put where a number is refused.
fn look_all(file: &[u8], p: &Plan) -> Result<(), u8>
    requires { Ready file.now p.now × (AtSpot file.now p.now.set 0 p.now.first × AllReal file.now p.now.set p.now.stored) }
    ensures { Told result (refusal_in (reads (real_at file.now p.now.set) 0 p.now.stored)) }
{
    let mut t = Turn {
        number: 0,
        spot: p.first,
    };
    while t.number < p.stored {
        if let Some(next) = usual_turn(file, p, t) {
            t = next;
        } else {
            refusal_in(columns_of(file, p, t))?;
            t = next_turn(file, p, t);
        }
    }
    Ok(())
}

// Puts the bit patterns of a set's numbers, all of them reals, into the places lent, one after the other.
fn put_all(file: &[u8], p: &Plan, out: &mut [u64])
    requires ready { Ready file.now p.now × (AtSpot file.now p.now.set 0 p.now.first × AllReal file.now p.now.set p.now.stored) }
    requires room { p.now.stored ≤ length out.old }
    ensures { out.new ≡ patterns_put (reads (real_at file.now p.now.set) 0 p.now.stored) out.old }
{
    let mut t = Turn {
        number: 0,
        spot: p.first,
    };
    while t.number < p.stored {
        if let Some(next) = usual_turn(file, p, t) {
            put_line(file, p, t, out);
            t = next;
        } else {
            put_number(file, p, t, out);
            t = next_turn(file, p, t);
        }
    }
}

// All values of a set, counted from 1, as the bit patterns of f64 into the places lent: the judge's refusal first; 18 where there is no such set
// or it is no 58; 21 where a number is outside the exact path; 20 where the places are too few; otherwise how many are filled.
pub fn values(file: &[u8], set: u32, out: &mut [u64]) -> Reply
    ensures { (result ≡ all_reply file.now set (length out.old)) × (out.new ≡ all_places file.now set out.old) }
{
    let judged = judge::judge(file);
    if 0 < judged.number {
        return judged;
    }
    let Some(d) = find_data(file, set) else {
        return judge::bare_reply(18, 0);
    };
    let stored = (d.count as usize) * layout::numbers_of(d.case);
    let p = plan_for(file, d, stored);
    if let Err(number) = look_all(file, &p) {
        return judge::bare_reply(number, 0);
    }
    if out.len() < stored {
        return judge::bare_reply(20, 0);
    }
    put_all(file, &p, out);
    judge::bare_reply(0, stored)
}
