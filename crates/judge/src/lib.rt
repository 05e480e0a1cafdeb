// The judge: a whole file, number and place.
#![tactic(auto)]

ghost use Rattle.std.specs.Prelude.{◌≡◌, true, ◌+◌, ◌-◌, ◌≤◌, ◌<◌, length, IfSome};
ghost use Rattle.judge.specs.Judge.{judged, reply, reply_at, line_step, going, run_end};
ghost use Rattle.judge.specs.Plain.{plain_delimiter, PlainNumber};
ghost use Rattle.judge.specs.Lines.{so_far, LinesAnswered};

use integer::integer_field;
use line::Refusal;
use walk::{Place, State};

// Document 01's number and place; for an accepted file 0 and the number of its lines. The column, from 1, of a line's refusal; any other reply's is 0.
// It stays as it is: number and place are what document 01 and the theorems `judge_passes` and `judge_refuses` say of a file, and what goes to C in one word.
#[derive(Clone, Copy)]
pub struct Reply {
    pub number: u8,
    pub place: usize,
    pub column: usize,
}

// A number and a place, no column.
pub fn bare_reply(number: u8, place: usize) -> Reply
    ensures { result ≡ reply number place }
{
    Reply {
        number,
        place,
        column: 0,
    }
}

// A number, a place and a column.
pub fn reply_at(number: u8, place: usize, column: usize) -> Reply
    ensures { result ≡ reply_at number place column }
{
    Reply {
        number,
        place,
        column,
    }
}

// Finished lines, none of them refused: the state after `lines` of them and the byte where the rest begins.
#[derive(Clone, Copy)]
pub struct Lines {
    pub state: State,
    pub lines: usize,
    pub at: usize,
}

// Finished lines, none of them refused, and what the line after them is refused for.
#[derive(Clone, Copy)]
pub struct Stopped {
    pub read: Lines,
    pub fault: Refusal,
}

// Whether the bytes are those of a delimiter with no blank after it.
fn is_plain_delimiter(line: &[u8]) -> bool
    ensures { result ≡ true → line.now ≡ plain_delimiter }
{
    matches!(line, b"    -1")
}

// The number above zero of a number line in its usual spelling, six columns; none of any other line.
fn number_due(s: State, columns: &[u8]) -> Option<u32>
    ensures { IfSome result (λ v. (s.place ≡ Place.Number) × (0 < v) × PlainNumber v columns.now) }
{
    if !matches!(s.place, Place::Number) || columns.len() != 6 {
        return None;
    }
    delimiter::positive(integer_field(columns))
}

// The step of a line that has its LF, by the bytes before it: its own refusals first, then those of its place.
pub fn line_step(s: State, line: &[u8]) -> Result<State, Refusal>
    ensures { result ≡ line_step s line.now }
{
    if is_plain_delimiter(line) {
        return walk::delimiter_step(s);
    }
    let n = line::columns_len(line, true);
    let columns = &line[..n];
    if let Some(number) = number_due(s, columns) {
        return Ok(State {
            place: walk::opened(number),
            ..s
        });
    }
    line::line_fault(columns, true)?;
    let mut row = [32u8; 80];
    line::fill_line(&mut row, columns);
    walk::step(s, &row)
}

// The state after so many lines, none of them refused, and the byte where the rest begins.
fn so_far(state: State, lines: usize, at: usize) -> Lines
    ensures { result ≡ so_far state lines at }
{
    Lines { state, lines, at }
}

// The finished lines of the bytes from `at` on, after `lines` others; refused at the first bad one. Lines in their usual spelling are taken in runs.
pub fn judge_lines(state: State, lines: usize, bytes: &[u8], at: usize) -> Result<Lines, Stopped>
    requires { (at ≤ length bytes.now) × (lines + (length bytes.now - at) ≤ 18446744073709551615) }
    ensures { LinesAnswered state lines bytes.now at result }
{
    let mut read = so_far(state, lines, at);
    let mut wait = 0;
    let mut pause = 0;
    // Stays a `while`: a turn takes a line or a whole run of them.
    while read.at < bytes.len() {
        if (wait == 0) & usual::in_data(read.state) {
            let ahead = usual::run_ahead(read.state, bytes, read.at, pause);
            read = so_far(ahead.state, read.lines + ahead.lines, ahead.at);
            wait = ahead.wait;
            pause = wait;
            continue;
        }
        let end = line::find_end(bytes, read.at);
        if bytes.len() <= end {
            return Ok(read);
        }
        match line_step(read.state, &bytes[read.at..end]) {
            Ok(next) => read = so_far(next, read.lines + 1, end + 1),
            Err(fault) => return Err(Stopped { read, fault }),
        }
        wait = usual::less(wait);
    }
    Ok(read)
}

// The reply at the end of a file that was not refused before, with the bytes after its last LF.
pub fn finish(s: State, lines: usize, rest: &[u8]) -> Reply
    requires { lines ≤ 16777216 }
    ensures { result ≡ run_end (going s lines) rest.now }
{
    if 0 < rest.len() {
        let Err(fault) = line::line_fault(rest, false) else {
            unreachable!();
        };
        return reply_at(fault.number, lines + 1, fault.column);
    }
    if !matches!(s.place, Place::Outside) {
        return reply_at(7, lines + 1, 1);
    }
    if s.sets == 0 {
        return bare_reply(16, 0);
    }
    bare_reply(0, lines)
}

// Document 01's judge.
pub fn judge(file: &[u8]) -> Reply
    ensures { result ≡ judged file.now }
{
    if 16777216 < file.len() {
        return bare_reply(1, 0);
    }
    let start = State {
        place: Place::Outside,
        sets: 0,
    };
    match judge_lines(start, 0, file, 0) {
        Ok(read) => finish(read.state, read.lines, &file[read.at..]),
        Err(stop) => reply_at(stop.fault.number, stop.read.lines + 1, stop.fault.column),
    }
}
