// Runs test vectors: for each line of standard input one line with the library's answer.
// A test line is a letter, two digits, one blank and what is tested; a line that begins with # is a heading and comes back.
#![tactic(auto)]

use integer::IntegerFault;
use line::Refusal;
use real::{Number, RealFault};
use std::io;
use std::io::Input;

// A minus where there is one.
fn minus_sign(minus: bool) -> &'static str {
    if minus { "-" } else { "" }
}

// i: what an integer field holds.
fn show_integer(rt: &impl Print, field: &[u8]) -> io::Result<()> {
    match integer::integer_field(field) {
        Err(IntegerFault::Blank) => print!(rt; "blank"),
        Err(IntegerFault::Malformed) => print!(rt; "malformed"),
        Err(IntegerFault::OutOfRange) => print!(rt; "out of range"),
        Ok(i) => print!(rt; "value {}{}", minus_sign(i.minus & (0 < i.size)), i.size),
    }
}

// Writes a real as sign, coefficient, E and scale.
fn put_real(rt: &impl Print, n: Number) -> io::Result<()> {
    let sign = if n.minus { "-" } else { "+" };
    print!(rt;
        "{sign}{}E{}{}",
        n.coefficient,
        minus_sign(n.below),
        n.scale
    )
}

// r: what a real field holds.
fn show_real(rt: &impl Print, field: &[u8]) -> io::Result<()> {
    match real::real_field(field) {
        Err(RealFault::Blank) => print!(rt; "blank"),
        Err(RealFault::Malformed) => print!(rt; "malformed"),
        Ok(n) => {
            print!(rt; "value ")?;
            put_real(rt, n)
        }
    }
}

// Writes the bit pattern of a number's f64, in decimal.
fn put_exact(rt: &impl Print, n: Number) -> io::Result<()> {
    match exact::exact_f64(n.minus, n.coefficient, n.below, n.scale) {
        Some(x) => print!(rt; "{}", exact::bits(x)),
        None => print!(rt; "outside"),
    }
}

// f: the f64 of the number that a real field holds.
fn show_exact(rt: &impl Print, field: &[u8]) -> io::Result<()> {
    match real::real_field(field) {
        Err(RealFault::Blank) => print!(rt; "blank"),
        Err(RealFault::Malformed) => print!(rt; "malformed"),
        Ok(n) => put_exact(rt, n),
    }
}

// t: a text without the blanks that close it, between bars.
fn show_text(rt: &impl Print, field: &[u8]) -> io::Result<()> {
    let n = text::text_len(field);
    print!(rt; "|")?;
    rt.write_all(&field[..n])?;
    print!(rt; "|")
}

// Writes an answer as the refusal's number and column, both 0 where nothing is wrong.
fn put_answer(rt: &impl Print, answer: Result<(), Refusal>) -> io::Result<()> {
    match answer {
        Ok(()) => print!(rt; "0 0"),
        Err(r) => print!(rt; "{} {}", r.number, r.column),
    }
}

// l, m: what a line is refused for by itself, with its LF or without.
fn show_line(rt: &impl Print, line: &[u8], ended: bool) -> io::Result<()> {
    let n = line::columns_len(line, ended);
    put_answer(rt, line::line_fault(&line[..n], ended))
}

// k: what a line is where a file's sets are parted.
fn show_kind(rt: &impl Print, columns: &[u8]) -> io::Result<()> {
    let mut line = [32u8; 80];
    line::fill_line(&mut line, columns);
    if delimiter::is_delimiter(&line) {
        return print!(rt; "delimiter");
    }
    if delimiter::is_blank_line(&line) {
        return print!(rt; "blank");
    }
    match delimiter::dataset_number(&line) {
        Some(number) => print!(rt; "number {number}"),
        None => print!(rt; "none"),
    }
}

// c: the first refusal of a line by a record.
fn show_record(rt: &impl Print, row: usize, columns: &[u8]) -> io::Result<()> {
    if record_table::NO_RECORD <= row {
        return print!(rt; "?");
    }
    let mut line = [32u8; 80];
    line::fill_line(&mut line, columns);
    put_answer(rt, record::check_record(&line, row))
}

// d: the first refusal of a data line of a case, from 1, on which this many numbers are due.
fn show_data(rt: &impl Print, case: usize, fields: usize, columns: &[u8]) -> io::Result<()> {
    if case < 1 {
        return print!(rt; "?");
    }
    if 8 < case {
        return print!(rt; "?");
    }
    let mut line = [32u8; 80];
    line::fill_line(&mut line, columns);
    put_answer(rt, record::check_data(&line, case - 1, fields))
}

// s: the data line of a case's stored number, and its first column and the one past it, all from 0; the case from 1.
fn show_stored(rt: &impl Print, case: usize, stored: Option<usize>) -> io::Result<()> {
    let Some(stored) = stored else {
        return print!(rt; "?");
    };
    if case < 1 {
        return print!(rt; "?");
    }
    let n = layout::fields_of(case - 1);
    if n == 0 {
        return print!(rt; "?");
    }
    let field = stored % n;
    let first = layout::field_start(case - 1, field);
    let past = first + layout::field_width(case - 1, field);
    print!(rt; "{} {first} {past}", stored / n)
}

// The number that an integer field holds, where it holds one with no minus.
fn number_in(field: &[u8]) -> Option<usize> {
    match integer::integer_field(field) {
        Ok(i) if !i.minus => Some(i.size as usize),
        _ => None,
    }
}

// The answer to a command with its two digits as a number, where they are one. A `match` and no list of closures: it shows each letter beside its answer.
fn answer(rt: &impl Print, command: u8, digits: Option<usize>, tested: &[u8]) -> io::Result<()> {
    match (command, digits) {
        (b'i', _) => show_integer(rt, tested),
        (b'r', _) => show_real(rt, tested),
        (b'f', _) => show_exact(rt, tested),
        (b't', _) => show_text(rt, tested),
        (b'l', _) => show_line(rt, tested, true),
        (b'm', _) => show_line(rt, tested, false),
        (b'k', _) => show_kind(rt, tested),
        (b'c', Some(row)) => show_record(rt, row, tested),
        (b'd', Some(n)) => show_data(rt, n / 10, n % 10, tested),
        (b's', Some(n)) => show_stored(rt, n / 10, number_in(tested)),
        _ => print!(rt; "?"),
    }
}

// The answer to a line.
fn answer_line(rt: &impl Print, line: &[u8]) -> io::Result<()> {
    if line.len() < 1 {
        return print!(rt; "?");
    }
    if line[0] == b'#' {
        return rt.write_all(line);
    }
    if line.len() < 4 {
        return print!(rt; "?");
    }
    answer(rt, line[0], number_in(&line[1..3]), &line[4..])
}

// The answers to all lines that end in LF, each as a line of its own.
fn answer_lines(rt: &impl Print, file: &[u8]) -> io::Result<()> {
    for line in file.split_inclusive(|b| *b == b'\n') {
        if let Some((b'\n', line)) = line.split_last() {
            answer_line(rt, line)?;
            print!(rt; "\n")?;
        }
    }
    Ok(())
}

// Standard input past 65,536 bytes is not read.
fn main(rt: HostRuntime) -> io::Result<()> {
    let mut file = [0u8; 65536];
    let n = intake::read_full(&mut rt.reader(), &mut file)?;
    answer_lines(&rt, &file[..n])
}
