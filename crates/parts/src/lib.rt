// The sets of a file as they stand in it, parted by its delimiters, and its lines, skipped by their LFs.
// An `as` is proved to lose nothing; where one stands, std has no From between the two types, and `try_from` would ask for an answer to an error that cannot be.
#![tactic(auto)]

ghost use Rattle.std.specs.Prelude.{◌≡◌, ◌+◌, ◌≤◌, ◌<◌, length, drop};
ghost use Rattle.delimiter.specs.Kind.{dataset_number};
ghost use Rattle.laws.specs.Cut.{cut};
ghost use Rattle.parts.specs.Parts.{shown, columns_in, closes, outside, parts_from};
ghost use Rattle.record_table.specs.TypedSets.{line_seven};
ghost use Rattle.record.specs.Declares.{case_in, count_in};
ghost use Rattle.parts.specs.Scan.{line_from, first_of, skip_to, columns_at};
ghost use Rattle.parts.specs.Mark.{quiet, ends_in, marked, Passed, LastLine};
ghost use Rattle.parts.specs.Skip.{past_ends, Skipped};
ghost use Rattle.parts.specs.Padding.{last_field, padding_in};
ghost use Rattle.parts.specs.Counted.{declared_at, counted_at};

use layout::{field_start, fields_of};
use text::is_blank;

// A delimiter: how many lines come before it, its first byte and the byte past its line.
#[derive(Clone, Copy)]
pub struct Mark {
    pub lines: usize,
    pub at: usize,
    pub past: usize,
}

// A byte, and how many lines come before the line that it is in.
#[derive(Clone, Copy)]
pub struct Spot {
    pub at: usize,
    pub lines: usize,
}

// A byte, and how many LFs are to be passed from it on.
#[derive(Clone, Copy)]
pub struct Onward {
    pub at: usize,
    pub left: usize,
}

// Where a set stands: how many lines and bytes come before it, its number, the first byte of its lines, of the last of them and of its
// closing delimiter, the byte past it, and how many lines there are up to that.
#[derive(Clone, Copy)]
pub struct Extent {
    pub lines: usize,
    pub first: usize,
    pub number: u32,
    pub body: usize,
    pub last: usize,
    pub closing: usize,
    pub past: usize,
    pub through: usize,
}

// What a 58 declares: its case, and how many numbers it stores.
#[derive(Clone, Copy)]
pub struct Declared {
    pub case: usize,
    pub stored: usize,
}

// The line of a set of which only counted columns are kept, by its first byte, and the column past them. Where there is none, the first
// byte of the closing delimiter and 0.
#[derive(Clone, Copy)]
pub struct Counted {
    pub line: usize,
    pub past: usize,
}

// Lays out the 80 columns of a line, given by the bytes before its LF.
pub fn put_columns(row: &mut [u8; 80], line: &[u8])
    ensures { row.new ≡ columns_in line.now }
{
    let n = line::columns_len(line, true);
    line::fill_line(row, &line[..n]);
}

// How many of the bytes before a line's LF are its columns, of which there are at most 80.
fn shown_len(line: &[u8]) -> usize
    ensures { (result ≡ length (shown line.now)) × (result ≤ length line.now) }
{
    line::columns_len(line, true).min(80)
}

// Whether a line is a delimiter.
pub fn is_delimiter_line(line: &[u8]) -> bool
    ensures { result ≡ closes line.now }
{
    let n = shown_len(line);
    if n < 6 {
        return false;
    }
    if line[4] != 45 {
        return false;
    }
    if line[5] != 49 {
        return false;
    }
    if !is_blank(&line[0..4]) {
        return false;
    }
    is_blank(&line[6..n])
}

// The number of a number line; 0 where it is none. Stays a u32: `dataset_of`, and the theorems that say a set's number by it, hold a plain number.
pub fn line_number(line: &[u8]) -> u32
    ensures { result ≡ dataset_number (columns_in line.now) }
{
    let n = shown_len(line);
    if n == 6 {
        return delimiter::positive(integer::integer_field(&line[0..6])).unwrap_or(0);
    }
    let mut row = [32u8; 80];
    put_columns(&mut row, line);
    delimiter::dataset_number(&row).unwrap_or(0)
}

// Whether no LF of these bytes has a minus beside it in the bytes that stand five further, as the LF before a delimiter has.
fn is_quiet(bytes: &[u8], later: &[u8]) -> bool
    ensures { result ≡ quiet bytes.now later.now }
{
    let mut none = true;
    for (b, c) in bytes.iter().zip(later) {
        none = none & !((*b == 10) & (*c == 45));
    }
    none
}

// How many LFs are among at most 255 bytes.
fn ends_in(bytes: &[u8]) -> u8
    requires { length bytes.now ≤ 255 }
    ensures { result ≡ ends_in bytes.now }
{
    let mut ends = 0;
    for b in bytes {
        ends += u8::from(*b == 10);
    }
    ends
}

// Past blocks of bytes in which no delimiter follows an LF, from a byte in a line that so many come before. Blocks are gone over here and in `skip_blocks`,
// `rewriter::past_bare` and `line::past_blocks`, each with its own size, look ahead and count: one walker would take a closure for each and read no plainer.
fn past_quiet(file: &[u8], from: usize, before: usize) -> Spot
    requires { (from ≤ length file.now) × (before ≤ from) }
    ensures { Passed file.now from before result }
{
    let mut at = from;
    let mut lines = before;
    if file.len() - from < 5 {
        return Spot { at, lines };
    }
    let later = from + 5;
    for (block, ahead) in file[from..]
        .chunks_exact(64)
        .zip(file[later..].chunks_exact(64))
    {
        if !is_quiet(block, ahead) {
            return Spot { at, lines };
        }
        lines += usize::from(ends_in(block));
        at += 64;
    }
    Spot { at, lines }
}

// The first delimiter among the lines that begin at byte `from`, after so many lines.
pub fn find_delimiter(file: &[u8], from: usize, before: usize) -> Option<Mark>
    requires { (from ≤ length file.now) × (before ≤ from) }
    ensures { result ≡ marked file.now before from }
{
    let mut at = from;
    let mut lines = before;
    let mut end = line::find_end(file, at);
    // A search with three ways out, whose steps are as long as a line and the blocks after it: no `for` is plainer.
    while end < file.len() {
        if is_delimiter_line(&file[at..end]) {
            let past = end + 1;
            return Some(Mark { lines, at, past });
        }
        let passed = past_quiet(file, end, lines);
        let stop = line::find_end(file, passed.at);
        if file.len() <= stop {
            return None;
        }
        lines = passed.lines + 1;
        at = stop + 1;
        end = line::find_end(file, at);
    }
    None
}

// The first byte of the last of the lines that begin at byte `from` and stop before byte `closing`; where there is none, byte `from`.
pub fn last_line(file: &[u8], from: usize, closing: usize) -> usize
    requires { (from ≤ closing) × (closing ≤ length file.now + 1) }
    ensures { LastLine file.now from closing result }
{
    if closing <= from {
        return from;
    }
    let stop = closing - 1;
    match file[from..stop].iter().rposition(|b| *b == 10) {
        Some(k) => from + k + 1,
        None => from,
    }
}

// Where the next set stands, from byte `from` on, outside sets, after so many lines.
pub fn next_set(file: &[u8], from: usize, before: usize) -> Option<Extent>
    requires { (from ≤ length file.now) × (before ≤ from) }
    ensures { result ≡ first_of (parts_from outside before from (cut (drop from file.now)).lines) }
{
    let opening = find_delimiter(file, from, before)?;
    let number = opening.past;
    let end = line::find_end(file, number);
    if file.len() <= end {
        return None;
    }
    let body = end + 1;
    let closing = find_delimiter(file, body, opening.lines + 2)?;
    Some(Extent {
        lines: opening.lines,
        first: opening.at,
        number: line_number(&file[number..end]),
        body,
        last: last_line(file, body, closing.at),
        closing: closing.at,
        past: closing.past,
        through: closing.lines + 1,
    })
}

// The first byte of line k, from 0, of lines that begin at byte `from` and stop before byte `closing`; where there is none, the byte
// where they stop.
pub fn line_start(file: &[u8], from: usize, closing: usize, k: usize) -> usize
    requires { from ≤ length file.now }
    ensures { (result ≡ skip_to k closing from (cut (drop from file.now)).lines) × (result ≤ length file.now) }
{
    let mut at = from;
    for _ in 0..k {
        if closing <= at {
            return at;
        }
        let end = line::find_end(file, at);
        if file.len() <= end {
            return at;
        }
        at = end + 1;
    }
    at
}

// Past blocks of bytes that hold fewer LFs than are to be passed.
fn skip_blocks(file: &[u8], from: usize, k: usize) -> Onward
    requires { from ≤ length file.now }
    ensures { Skipped file.now from k result.at result.left }
{
    let mut at = from;
    let mut left = k;
    for block in file[from..].chunks_exact(64) {
        let ends = usize::from(ends_in(block));
        if left <= ends {
            return Onward { at, left };
        }
        left -= ends;
        at += 64;
    }
    Onward { at, left }
}

// The byte past k LFs from byte `from` on, which is the first of line k, from 0, of the lines that begin there; the end of the file where
// there are fewer.
pub fn skip_lines(file: &[u8], from: usize, k: usize) -> usize
    requires { from ≤ length file.now }
    ensures { (result ≡ from + past_ends k (drop from file.now)) × (result ≤ length file.now) }
{
    let mut at = from;
    for _ in 0..k {
        let end = line::find_end(file, at);
        if file.len() <= end {
            return end;
        }
        at = end + 1;
    }
    at
}

// The same, quick where k is great.
pub fn skip_many(file: &[u8], from: usize, k: usize) -> usize
    requires { from ≤ length file.now }
    ensures { (result ≡ from + past_ends k (drop from file.now)) × (result ≤ length file.now) }
{
    let ahead = skip_blocks(file, from, k);
    skip_lines(file, ahead.at, ahead.left)
}

// Lays out the 80 columns of the line that begins at byte `at`; blanks where no line begins there before byte `closing`.
pub fn put_line(row: &mut [u8; 80], file: &[u8], at: usize, closing: usize)
    requires { at ≤ length file.now }
    ensures { row.new ≡ columns_at closing at file.now }
{
    if closing <= at {
        return put_columns(row, &file[at..at]);
    }
    let end = line::find_end(file, at);
    put_columns(row, &file[at..end])
}

// Lays out the 80 columns of line k of lines that begin at byte `from` and stop before byte `closing`.
pub fn put_line_at(row: &mut [u8; 80], file: &[u8], from: usize, closing: usize, k: usize)
    requires { from ≤ length file.now }
    ensures { row.new ≡ line_from closing from file.now k }
{
    let at = line_start(file, from, closing, k);
    put_line(row, file, at, closing)
}

// The count that the seventh of these lines declares, as in a 58; a plain number, as `walk::count_in` has it.
pub fn count_in(file: &[u8], from: usize, closing: usize) -> u32
    requires { from ≤ length file.now }
    ensures { result ≡ count_in (line_from closing from file.now line_seven) }
{
    let mut row = [32u8; 80];
    put_line_at(&mut row, file, from, closing, record_table::LINE_SEVEN);
    walk::count_in(&row)
}

// The case that the seventh of these lines names, as in a 58; a plain number, as `walk::case_in` has it.
pub fn case_in(file: &[u8], from: usize, closing: usize) -> usize
    requires { from ≤ length file.now }
    ensures { result ≡ case_in (line_from closing from file.now line_seven) }
{
    let mut row = [32u8; 80];
    put_line_at(&mut row, file, from, closing, record_table::LINE_SEVEN);
    walk::case_in(&row)
}

// What a set declares; no number is stored unless it is a 58.
pub fn declared_at(file: &[u8], e: Extent) -> Declared
    requires { e.body ≤ length file.now }
    ensures { result ≡ declared_at file.now e }
{
    if e.number != 58 {
        return Declared { case: 0, stored: 0 };
    }
    let mut row = [32u8; 80];
    put_line_at(&mut row, file, e.body, e.closing, record_table::LINE_SEVEN);
    let case = walk::case_in(&row);
    Declared {
        case,
        stored: (walk::count_in(&row) as usize) * layout::numbers_of(case),
    }
}

// The field of the last of so many stored numbers, from 1.
fn last_field(case: usize, stored: usize) -> usize
    requires { (case < 8) × (0 < stored) }
    ensures { result ≡ last_field case stored }
{
    (stored - 1) % fields_of(case)
}

// How many fields stand past that one, 0 where their columns are blank.
pub fn padding_in(row: &[u8; 80], case: usize, stored: usize) -> usize
    requires { (case < 8) × (0 < stored) }
    ensures { result ≡ padding_in case stored row.now }
{
    let fields = fields_of(case);
    let counted = last_field(case, stored) + 1;
    let from = field_start(case, counted);
    let past = field_start(case, fields);
    let columns: &[u8] = row;
    if is_blank(&columns[from..past]) {
        return 0;
    }
    fields - counted
}

// Which columns of a set's last line count.
pub fn counted_at(file: &[u8], e: Extent) -> Counted
    requires { e.body ≤ length file.now }
    ensures { result ≡ counted_at file.now e }
{
    let d = declared_at(file, e);
    if d.stored == 0 {
        return Counted {
            line: e.closing,
            past: 0,
        };
    }
    let field = last_field(d.case, d.stored);
    Counted {
        line: e.last,
        past: field_start(d.case, field + 1),
    }
}
