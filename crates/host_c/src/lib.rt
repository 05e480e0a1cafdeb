// The calls for C hosts, as a static library: each is that of `host`, with its promise. Lent buffers do not overlap; a null pointer with count 0 is
// an empty slice.
#![tactic(auto)]

ghost use Rattle.std.specs.Prelude.{◌≡◌, length};
ghost use Rattle.host.specs.Packed.{word};
ghost use Rattle.host.specs.Answer.{number_answer, value_answer, field_answer, reply_for, bytes_after};
ghost use Rattle.judge.specs.Judge.{judged};
ghost use Rattle.stream_c.specs.Lent.{start_reply, start_numbers, start_line, Burst, end_of, end_numbers};
ghost use Rattle.lister.specs.Lister.{list_reply, list_rows};
ghost use Rattle.rewriter.specs.Rewriter.{rewrite_reply, rewrite_out};
ghost use Rattle.values.specs.Values.{all_reply, all_places};
ghost use Rattle.writer.specs.Writer.{write_reply, write_out};
ghost use Rattle.reader.specs.Reader.{stored_number, value_of};
ghost use Rattle.format_reader.specs.Question.{answer_of};

// Document 01's judge: the number and the place; for an accepted file 0 and the number of its lines.
#[unsafe(no_mangle)]
pub extern "C" fn uff_judge(file: &[u8]) -> u64
    ensures { result ≡ word (judged file.now) }
{
    host::uff_judge(file)
}

// Document 01's lister: seven numbers a set into the rows lent; the number of sets.
#[unsafe(no_mangle)]
pub extern "C" fn uff_list(file: &[u8], rows: &mut [u32]) -> u64
    ensures { (result ≡ word (list_reply file.now (length rows.old))) × (rows.new ≡ list_rows file.now rows.old) }
{
    host::uff_list(file, rows)
}

// Document 01's reader: a stored number by its set, counted from 1, and its index, counted from 0.
#[unsafe(no_mangle)]
pub extern "C" fn uff_number(file: &[u8], set: u32, index: u32, out: &mut [u8]) -> u64
    ensures { (result ≡ reply_for (number_answer (stored_number file.now set index)) (length out.old)) × (out.new ≡ bytes_after (number_answer (stored_number file.now set index)) out.old) }
{
    host::uff_number(file, set, index, out)
}

// Document 01's reader: a value by its set, counted from 1, and its index, counted from 0.
#[unsafe(no_mangle)]
pub extern "C" fn uff_value(file: &[u8], set: u32, index: u32, out: &mut [u8]) -> u64
    ensures { (result ≡ reply_for (value_answer (value_of file.now set index)) (length out.old)) × (out.new ≡ bytes_after (value_answer (value_of file.now set index)) out.old) }
{
    host::uff_value(file, set, index, out)
}

// All values of a set, counted from 1, one after the other, as the bit patterns of f64 into the places lent, which in C are doubles; how many
// are filled.
#[unsafe(no_mangle)]
pub extern "C" fn uff_values(file: &[u8], set: u32, out: &mut [u64]) -> u64
    ensures { (result ≡ word (all_reply file.now set (length out.old))) × (out.new ≡ all_places file.now set out.old) }
{
    host::uff_values(file, set, out)
}

// Document 02's question of C-15: a field, by its number from 0, of a line lent alone, as a FORMAT has it.
#[unsafe(no_mangle)]
pub extern "C" fn uff_field(format: &[u8], line: &[u8], field: u32, out: &mut [u8]) -> u64
    ensures { (result ≡ reply_for (field_answer (answer_of format.now field line.now)) (length out.old)) × (out.new ≡ bytes_after (field_answer (answer_of format.now field line.now)) out.old) }
{
    host::uff_field(format, line, field, out)
}

// Document 01's rewriter: the file in rewritten form into the bytes lent; its length.
#[unsafe(no_mangle)]
pub extern "C" fn uff_rewrite(file: &[u8], out: &mut [u8]) -> u64
    ensures { (result ≡ word (rewrite_reply file.now (length out.old))) × (out.new ≡ rewrite_out file.now out.old) }
{
    host::uff_rewrite(file, out)
}

// Document 01's writer: one 58, from its eleven header lines and its numbers, into the bytes lent; its length.
#[unsafe(no_mangle)]
pub extern "C" fn uff_write(
    header: &[u8],
    coefficients: &[i64],
    scales: &[i16],
    out: &mut [u8],
) -> u64
    ensures { (result ≡ word (write_reply header.now coefficients.now scales.now (length out.old))) × (out.new ≡ write_out header.now coefficients.now scales.now out.old) }
{
    host::uff_write(header, coefficients, scales, out)
}

// A file judged while it arrives: lays out a record that starts a new file.
#[unsafe(no_mangle)]
pub extern "C" fn uff_start(numbers: &mut [u64], line: &mut [u8]) -> u64
    ensures { (result ≡ word (start_reply numbers.old line.old)) × (numbers.new ≡ start_numbers numbers.old line.old) × (line.new ≡ start_line numbers.old line.old) }
{
    host::uff_start(numbers, line)
}

// Brings the record up to date by a burst; its refusal so far, or 127 and the number of finished lines.
#[unsafe(no_mangle)]
pub extern "C" fn uff_burst(numbers: &mut [u64], line: &mut [u8], bytes: &[u8]) -> u64
    ensures { Burst word numbers.old line.old bytes.now numbers.new line.new result }
{
    host::uff_burst(numbers, line, bytes)
}

// The end of the record's file: the judge's reply for the whole of it.
#[unsafe(no_mangle)]
pub extern "C" fn uff_end(numbers: &mut [u64], line: &[u8]) -> u64
    ensures { (result ≡ word (end_of numbers.old line.now)) × (numbers.new ≡ end_numbers numbers.old line.now) }
{
    host::uff_end(numbers, line)
}
