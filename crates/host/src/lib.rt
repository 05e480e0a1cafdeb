// The calls for C hosts. Lent buffers do not overlap; a null pointer with count 0 is an empty slice.
// An `as` is proved to lose nothing; where one stands, std has no From between the two types, and `try_from` would ask for an answer to an error that cannot be.
#![tactic(auto)]

ghost use Rattle.std.specs.Prelude.{◌≡◌, [], ◌∷◌, ◌++◌, ◌≤◌, length, drop};
ghost use Rattle.host.specs.Packed.{column_bits, word, packed};
ghost use Rattle.host.specs.Answer.{twos_complement, number_bytes, number_answer, value_answer, field_answer, reply_for, bytes_after};
ghost use Rattle.text.specs.Parts.{signed};
ghost use Rattle.judge.specs.Judge.{judged};
ghost use Rattle.stream_c.specs.Lent.{start_reply, start_numbers, start_line, Burst, end_of, end_numbers};
ghost use Rattle.lister.specs.Lister.{list_reply, list_rows};
ghost use Rattle.rewriter.specs.Rewriter.{rewrite_reply, rewrite_out};
ghost use Rattle.values.specs.Values.{all_reply, all_places};
ghost use Rattle.writer.specs.Writer.{write_reply, write_out};
ghost use Rattle.reader.specs.Reader.{said, shown, paper, paper_number, stored_number, value_of};
ghost use Rattle.format_reader.specs.Question.{columns, number, paper_field, answer_of};

use exact::bits;
use format_reader::Field;
use judge::Reply;
use output::put_bytes;
use reader::{Numbers, Stored};

// A column as the word has it.
fn column_bits(column: usize) -> u64
    ensures { result ≡ column_bits column }
{
    column.min(33554431) as u64
}

// A reply as one word.
fn pack(r: Reply) -> u64
    ensures { result ≡ word r }
{
    let column = column_bits(r.column) * 4294967296;
    let place = (r.place % 4294967296) as u64;
    u64::from(r.number % 128) * 144115188075855872 + (column + place)
}

// A number and a place as one word, no column.
fn bare(number: u8, place: usize) -> u64
    ensures { result ≡ packed number place }
{
    pack(judge::bare_reply(number, place))
}

// Document 01's judge: the number and the place; for an accepted file 0 and the number of its lines.
pub fn uff_judge(file: &[u8]) -> u64
    ensures { result ≡ word (judged file.now) }
{
    let found = judge::judge(file);
    pack(found)
}

// Document 01's lister: seven numbers a set into the rows lent; the number of sets.
pub fn uff_list(file: &[u8], rows: &mut [u32]) -> u64
    ensures { (result ≡ word (list_reply file.now (length rows.old))) × (rows.new ≡ list_rows file.now rows.old) }
{
    let found = lister::list(file, rows);
    pack(found)
}

// A scale, by whether it is below zero and its size, as the 16 bits of an i16.
fn scale_bits(below: bool, size: u16) -> u64
    ensures { result ≡ twos_complement (signed below size) }
{
    if below {
        return u64::from(size.wrapping_neg());
    }
    u64::from(size)
}

// Lays a stored number.
fn put_number(out: &mut [u8], s: Stored)
    requires { 20 ≤ length out.old }
    ensures { out.new ≡ number_bytes (shown s.first s.past s.minus s.coefficient s.below s.scale) ++ drop 20 out.old }
{
    put_bytes(out, 0, 4, s.first as u64);
    put_bytes(out, 4, 8, s.past as u64);
    put_bytes(out, 8, 16, s.coefficient);
    put_bytes(out, 16, 18, scale_bits(s.below, s.scale));
    put_bytes(out, 18, 20, u64::from(s.minus));
}

// Answers with a stored number, or with its refusal; 20 where it has no room.
fn answer_number(out: &mut [u8], a: Result<Stored, Reply>) -> u64
    ensures { (result ≡ reply_for (number_answer (paper_number a)) (length out.old)) × (out.new ≡ bytes_after (number_answer (paper_number a)) out.old) }
{
    match a {
        Ok(s) => {
            if out.len() < 20 {
                return bare(20, 0);
            }
            put_number(out, s);
            bare(0, 20)
        }
        Err(r) => pack(r),
    }
}

// Document 01's reader: a stored number by its set, counted from 1, and its index, counted from 0.
pub fn uff_number(file: &[u8], set: u32, index: u32, out: &mut [u8]) -> u64
    ensures { (result ≡ reply_for (number_answer (stored_number file.now set index)) (length out.old)) × (out.new ≡ bytes_after (number_answer (stored_number file.now set index)) out.old) }
{
    answer_number(out, reader::number(file, set, index))
}

// Answers with the f64 of a value of this kind; 20 where they have no room.
fn answer_reals(out: &mut [u8], kind: usize, xs: &[f64]) -> u64
    ensures { (result ≡ reply_for (value_answer (said 0 kind xs.now)) (length out.old)) × (out.new ≡ bytes_after (value_answer (said 0 kind xs.now)) out.old) }
{
    if out.len() / 8 < xs.len() {
        return bare(20, 0);
    }
    for (i, x) in xs.iter().enumerate() {
        put_bytes(out, 8 * i, 8 * i + 8, bits(*x));
    }
    bare(0, kind)
}

// Answers with a value, or with its refusal.
fn answer_value(out: &mut [u8], a: Result<Numbers, Reply>) -> u64
    ensures { (result ≡ reply_for (value_answer (paper a)) (length out.old)) × (out.new ≡ bytes_after (value_answer (paper a)) out.old) }
{
    match a {
        Ok(Numbers::Real(x)) => answer_reals(out, 1, &[x]),
        Ok(Numbers::Complex(x, y)) => answer_reals(out, 2, &[x, y]),
        Ok(Numbers::RealAt(x, y)) => answer_reals(out, 3, &[x, y]),
        Ok(Numbers::ComplexAt(x, y, z)) => answer_reals(out, 4, &[x, y, z]),
        Err(r) => pack(r),
    }
}

// Document 01's reader: a value by its set, counted from 1, and its index, counted from 0.
pub fn uff_value(file: &[u8], set: u32, index: u32, out: &mut [u8]) -> u64
    ensures { (result ≡ reply_for (value_answer (value_of file.now set index)) (length out.old)) × (out.new ≡ bytes_after (value_answer (value_of file.now set index)) out.old) }
{
    answer_value(out, reader::value(file, set, index))
}

// All values of a set, counted from 1, one after the other, as the bit patterns of f64 into the places lent, which in C are doubles; how many
// are filled.
pub fn uff_values(file: &[u8], set: u32, out: &mut [u64]) -> u64
    ensures { (result ≡ word (all_reply file.now set (length out.old))) × (out.new ≡ all_places file.now set out.old) }
{
    let found = values::values(file, set, out);
    pack(found)
}

// Answers with the columns of a text or an integer, a field of this kind; 20 where they have no room.
fn answer_columns(out: &mut [u8], kind: usize, first: usize, past: usize) -> u64
    ensures { (result ≡ reply_for (field_answer (said 0 kind (columns first past ∷ []))) (length out.old)) × (out.new ≡ bytes_after (field_answer (said 0 kind (columns first past ∷ []))) out.old) }
{
    if out.len() < 8 {
        return bare(20, 0);
    }
    put_bytes(out, 0, 4, first as u64);
    put_bytes(out, 4, 8, past as u64);
    bare(0, kind)
}

// Answers with a real; 20 where it has no room.
fn answer_real(out: &mut [u8], s: Stored) -> u64
    ensures { (result ≡ reply_for (field_answer (said 0 3 (number (shown s.first s.past s.minus s.coefficient s.below s.scale) ∷ []))) (length out.old)) × (out.new ≡ bytes_after (field_answer (said 0 3 (number (shown s.first s.past s.minus s.coefficient s.below s.scale) ∷ []))) out.old) }
{
    if out.len() < 20 {
        return bare(20, 0);
    }
    put_number(out, s);
    bare(0, 3)
}

// Answers with a line's field, or with its refusal.
fn answer_field(out: &mut [u8], a: Result<Field, Reply>) -> u64
    ensures { (result ≡ reply_for (field_answer (paper_field a)) (length out.old)) × (out.new ≡ bytes_after (field_answer (paper_field a)) out.old) }
{
    match a {
        Ok(Field::Text(first, past)) => answer_columns(out, 1, first, past),
        Ok(Field::Integer(first, past)) => answer_columns(out, 2, first, past),
        Ok(Field::Real(s)) => answer_real(out, s),
        Err(r) => pack(r),
    }
}

// Document 02's question of C-15: a field, by its number from 0, of a line lent alone, as a FORMAT has it.
pub fn uff_field(format: &[u8], line: &[u8], field: u32, out: &mut [u8]) -> u64
    ensures { (result ≡ reply_for (field_answer (answer_of format.now field line.now)) (length out.old)) × (out.new ≡ bytes_after (field_answer (answer_of format.now field line.now)) out.old) }
{
    answer_field(out, format_reader::ask(format, line, field))
}

// Document 01's rewriter: the file in rewritten form into the bytes lent; its length.
pub fn uff_rewrite(file: &[u8], out: &mut [u8]) -> u64
    ensures { (result ≡ word (rewrite_reply file.now (length out.old))) × (out.new ≡ rewrite_out file.now out.old) }
{
    let found = rewriter::rewrite(file, out);
    pack(found)
}

// Document 01's writer: one 58, from its eleven header lines and its numbers, into the bytes lent; its length.
pub fn uff_write(header: &[u8], coefficients: &[i64], scales: &[i16], out: &mut [u8]) -> u64
    ensures { (result ≡ word (write_reply header.now coefficients.now scales.now (length out.old))) × (out.new ≡ write_out header.now coefficients.now scales.now out.old) }
{
    let found = writer::write(header, coefficients, scales, out);
    pack(found)
}

// A file judged while it arrives: lays out a record that starts a new file.
pub fn uff_start(numbers: &mut [u64], line: &mut [u8]) -> u64
    ensures { (result ≡ word (start_reply numbers.old line.old)) × (numbers.new ≡ start_numbers numbers.old line.old) × (line.new ≡ start_line numbers.old line.old) }
{
    let found = stream_c::start(numbers, line);
    pack(found)
}

// Brings the record up to date by a burst; its refusal so far, or 127 and the number of finished lines.
pub fn uff_burst(numbers: &mut [u64], line: &mut [u8], bytes: &[u8]) -> u64
    ensures { Burst word numbers.old line.old bytes.now numbers.new line.new result }
{
    let found = stream_c::burst(numbers, line, bytes);
    pack(found)
}

// The end of the record's file: the judge's reply for the whole of it.
pub fn uff_end(numbers: &mut [u64], line: &[u8]) -> u64
    ensures { (result ≡ word (end_of numbers.old line.now)) × (numbers.new ≡ end_numbers numbers.old line.now) }
{
    let found = stream_c::end(numbers, line);
    pack(found)
}
