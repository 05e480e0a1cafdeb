// Document 01's lister: where the sets of a file stand.
// An `as` is proved to lose nothing; where one stands, std has no From between the two types, and `try_from` would ask for an answer to an error that cannot be.
#![tactic(auto)]

ghost use Rattle.std.specs.Prelude.{◌≡◌, ◌++◌, ◌+◌, ◌*◌, ◌≤◌, ◌<◌, length, take, drop};
ghost use Rattle.laws.specs.Cut.{line_len};
ghost use Rattle.parts.specs.Parts.{columns_in, parts_of};
ghost use Rattle.parts.specs.Set.{remaining};
ghost use Rattle.lister.specs.Lister.{row_numbers, rows_of, list_reply, list_rows};
ghost use Rattle.lister.specs.Listed.{listed_first, row_of, data_form_of, function_of, AllComplete, At58, Small};
ghost use Rattle.lister.specs.Count.{Counted};

use judge::Reply;
use parts::{find_delimiter, skip_lines, skip_many};
use record_table::{HEADER_LINES, LINE_SEVEN};
use walk::{Place, State};

// How many places a set has in the rows.
pub const ROW_NUMBERS: usize = 7;

// What line 7 of a 58 declares, its case and its count, and the first byte of its data lines.
#[derive(Clone, Copy)]
pub struct DataForm {
    pub case: usize,
    pub count: u32,
    pub values: usize,
}

// What the lines of a 58 say of it: the declared count, the first byte of its data lines, how many numbers are padding, the byte past its
// closing line, and how many lines it has of its own.
#[derive(Clone, Copy)]
pub struct Function {
    pub count: u32,
    pub values: usize,
    pub padding: usize,
    pub past: usize,
    pub lines: usize,
}

// A set: how many lines come before it, its row's other numbers, and how many lines there are up to the end of it.
#[derive(Clone, Copy)]
pub struct Listed {
    pub lines: usize,
    pub number: u32,
    pub count: u32,
    pub first: usize,
    pub past: usize,
    pub values: usize,
    pub padding: usize,
    pub through: usize,
}

// How many sets an accepted file has, counted as it is judged; of any other the judge's reply.
fn judge_sets(file: &[u8]) -> Result<u32, Reply>
    ensures { Counted file.now result }
{
    if 16777216 < file.len() {
        return Err(judge::bare_reply(1, 0));
    }
    let start = State {
        place: Place::Outside,
        sets: 0,
    };
    let read = match judge::judge_lines(start, 0, file, 0) {
        Ok(read) => read,
        Err(stop) => return Err(judge::reply_at(
            stop.fault.number,
            stop.read.lines + 1,
            stop.fault.column,
        )),
    };
    let reply = judge::finish(read.state, read.lines, &file[read.at..]);
    if 0 < reply.number {
        return Err(reply);
    }
    Ok(read.state.sets)
}

// Lays out the 80 columns of the line that begins at byte `at`; the byte past its LF.
fn take_line(row: &mut [u8; 80], file: &[u8], at: usize) -> usize
    requires { at ≤ length file.now }
    ensures { (result ≡ at + line_len (drop at file.now) + 1) × (row.new ≡ columns_in (take (line_len (drop at file.now)) (drop at file.now))) }
{
    let end = line::find_end(file, at);
    parts::put_columns(row, &file[at..end]);
    end + 1
}

// What line 7 of a 58 of an accepted file declares, and the first byte of its data lines; its lines begin at byte `body`.
fn read_data_form(file: &[u8], body: usize) -> DataForm
    requires { At58 file.now body }
    ensures { (s : At58 file.now body) → result ≡ data_form_of s.part }
{
    let mut row = [32u8; 80];
    let seven = skip_lines(file, body, LINE_SEVEN);
    let eight = take_line(&mut row, file, seven);
    DataForm {
        case: walk::case_in(&row),
        count: walk::count_in(&row),
        values: skip_lines(file, eight, HEADER_LINES - LINE_SEVEN - 1),
    }
}

// A 58 of an accepted file, whose lines begin at byte `body`: each of them is passed once, line 7 and the last are read.
fn function_at(file: &[u8], body: usize) -> Function
    requires { At58 file.now body }
    ensures { (s : At58 file.now body) → result ≡ function_of s.part }
{
    let d = read_data_form(file, body);
    let stored = (d.count as usize) * layout::numbers_of(d.case);
    let full = (stored - 1) / layout::fields_of(d.case);
    let last = skip_many(file, d.values, full);
    let mut row = [32u8; 80];
    let closing = take_line(&mut row, file, last);
    Function {
        count: d.count,
        values: d.values,
        padding: parts::padding_in(&row, d.case, stored),
        past: skip_lines(file, closing, 1),
        lines: HEADER_LINES + full + 1,
    }
}

// The next set of an accepted file that has one, from byte `from` on, outside sets, after so many lines.
fn next_listed(file: &[u8], from: usize, before: usize) -> Listed
    requires { (from ≤ length file.now) × ((before ≤ from) × (AllComplete (remaining file.now before from) × (0 < length (remaining file.now before from)))) }
    ensures { result ≡ listed_first (remaining file.now before from) }
{
    let opening = find_delimiter(file, from, before).unwrap();
    let line = opening.past;
    let end = line::find_end(file, line);
    let number = parts::line_number(&file[line..end]);
    let body = end + 1;
    if number == 58 {
        let f = function_at(file, body);
        return Listed {
            lines: opening.lines,
            number,
            count: f.count,
            first: opening.at,
            past: f.past,
            values: f.values,
            padding: f.padding,
            through: opening.lines + f.lines + 3,
        };
    }
    let closing = find_delimiter(file, body, opening.lines + 2).unwrap();
    Listed {
        lines: opening.lines,
        number,
        count: 0,
        first: opening.at,
        past: closing.past,
        values: 0,
        padding: 0,
        through: closing.lines + 1,
    }
}

// Lays out the numbers of a set.
fn put_row(row: &mut [u32], l: Listed)
    requires { (length row.old ≡ row_numbers) × Small 16777216 l }
    ensures { row.new ≡ row_of l }
{
    row[0] = (l.lines + 1) as u32;
    row[1] = l.number;
    row[2] = l.count;
    row[3] = l.first as u32;
    row[4] = l.past as u32;
    row[5] = l.values as u32;
    row[6] = l.padding as u32;
}

// Lays out the rows of an accepted file's sets, of which there are so many.
fn put_rows(file: &[u8], sets: usize, rows: &mut [u32])
    requires { (length file.now ≤ 16777216) × ((sets ≡ length (parts_of file.now)) × (AllComplete (parts_of file.now) × (row_numbers * sets ≤ length rows.old))) }
    ensures { rows.new ≡ rows_of (parts_of file.now) ++ drop (row_numbers * length (parts_of file.now)) rows.old }
{
    let mut at = 0;
    let mut lines = 0;
    for k in 0..sets {
        let l = next_listed(file, at, lines);
        let i = ROW_NUMBERS * k;
        let past = i + ROW_NUMBERS;
        put_row(&mut rows[i..past], l);
        at = l.past;
        lines = l.through;
    }
}

// Document 01's lister: seven numbers a set; the number of sets.
pub fn list(file: &[u8], rows: &mut [u32]) -> Reply
    ensures { (result ≡ list_reply file.now (length rows.old)) × (rows.new ≡ list_rows file.now rows.old) }
{
    let sets = match judge_sets(file) {
        Ok(sets) => sets as usize,
        Err(reply) => return reply,
    };
    if rows.len() < ROW_NUMBERS * sets {
        return judge::bare_reply(17, 0);
    }
    put_rows(file, sets, rows);
    judge::bare_reply(0, sets)
}
