// A file judged while it arrives: one standing record, brought up to date by each burst.
#![tactic(auto)]

ghost use Rattle.std.specs.Prelude.{◌≡◌, ◌+◌, ◌-◌, ◌≤◌, false, length, take, drop, ltb};
ghost use Rattle.laws.specs.Choice.{pick};
ghost use Rattle.line.specs.Line.{first_bad, verdict};
ghost use Rattle.judge.specs.Judge.{line_step};
ghost use Rattle.stream.specs.Stream.{line_in, columns_of, fault_of, open_outcome, is_strange, is_past, seen, Stepped, answer_of, end_reply, closed};
ghost use Rattle.stream.specs.Stream.{fresh_record, Running, Pushed, at_total, judged_on, arrived_on, lines_on, left_on};

use judge::Reply;
use line::Refusal;
use walk::{Place, State};

// The standing record. While `number` is 0: the state after `lines` finished lines, and the open line: `held` bytes, of which the first 80 stand in
// `pending` and the last one after them, and the column of the first that is not allowed (0: none). Otherwise line `lines` + 1 is refused with that
// number, at that column. `total` is the number of bytes so far, or 16,777,217 once there are more than 16,777,216. A fresh one starts a file; one made
// up otherwise is safe.
// `number` and `column` stay numbers with 0 for none, and `total` one with a value for too many: `stream_c` lays them out for C, which may lend any (`stream_of`).
#[derive(Clone, Copy)]
pub struct Stream {
    pub state: State,
    pub lines: usize,
    pub number: u8,
    pub column: usize,
    pub total: usize,
    pub pending: [u8; 81],
    pub held: usize,
    pub ended: bool,
}

// A record that starts a new file, all its numbers and bytes 0.
pub fn fresh() -> Stream
    ensures { result ≡ fresh_record }
{
    Stream {
        state: State {
            place: Place::Outside,
            sets: 0,
        },
        lines: 0,
        number: 0,
        column: 0,
        total: 0,
        pending: [0u8; 81],
        held: 0,
        ended: false,
    }
}

// Lays more bytes of an open line after its first `held`: as far as 80, and the last one.
fn push(line: &mut [u8; 81], held: usize, bytes: &[u8])
    requires { length line.old ≡ 81 }
    ensures { Pushed line.old held bytes.now line.new }
{
    let n = bytes.len();
    if n == 0 {
        return;
    }
    let from = held.min(80);
    let count = (80 - from).min(n);
    line[from..from + count].copy_from_slice(&bytes[..count]);
    line[80] = bytes[n - 1];
}

// The column of the first byte not allowed of an open line, with more bytes after its first `held`; `bad` is that of those, 0 where all are
// allowed, as the record has it.
fn bad_column(bad: usize, held: usize, bytes: &[u8]) -> usize
    requires { held + length bytes.now ≤ 18446744073709551615 }
    ensures { result ≡ pick (ltb 0 bad) bad (first_bad (held + 1) bytes.now) }
{
    if 0 < bad {
        return bad;
    }
    match line::first_bad(bytes) {
        Some(found) => held + found,
        None => 0,
    }
}

// How many columns an open line has, by its last byte: all its bytes, but for a CR that comes last where its LF is there.
fn open_columns(last: u8, held: usize, ended: bool) -> usize
    ensures { result ≡ columns_of ended last held }
{
    if held == 0 {
        return 0;
    }
    if ended & (last == 13) {
        return held - 1;
    }
    held
}

// What an open line is refused for by itself: 2, 3, then 4, for a line without its LF.
fn open_fault(columns: usize, bad: usize, ended: bool) -> Result<(), Refusal>
    ensures { result ≡ verdict (fault_of ended columns bad) }
{
    if (0 < bad) & (bad <= columns) {
        return Err(Refusal {
            number: 2,
            column: bad,
        });
    }
    if 80 < columns {
        return Err(Refusal {
            number: 3,
            column: 1,
        });
    }
    if ended {
        return Ok(());
    }
    Err(Refusal {
        number: 4,
        column: 1,
    })
}

// The step of the first `n` bytes as a line that has its LF: judged by the loop over lines, with an LF laid after the columns.
fn ended_outcome(state: State, line: &[u8; 81], n: usize) -> Result<State, Refusal>
    requires { n ≤ 80 }
    ensures { result ≡ line_step state (take n line.now) }
{
    let bytes: &[u8] = line;
    let m = line::columns_len(&bytes[..n], true);
    line::line_fault(&bytes[..m], true)?;
    let mut ended = *line;
    ended[m] = 10;
    match judge::judge_lines(state, 0, &ended[..m + 1], 0) {
        Ok(read) => Ok(read.state),
        Err(stop) => Err(stop.fault),
    }
}

// The step of the open line when its LF comes.
fn open_outcome(state: State, line: &[u8; 81], held: usize, bad: usize) -> Result<State, Refusal>
    ensures { result ≡ open_outcome state (line_in line.now held bad) }
{
    let n = open_columns(line[80], held, true);
    open_fault(n, bad, true)?;
    ended_outcome(state, line, n)
}

// Whether a refusal's number is neither 0 nor one that a line can have, 2 to 15, 24 and 25.
fn is_strange(number: u8) -> bool
    ensures { result ≡ is_strange number }
{
    (number == 1) | ((15 < number) & ((number < 24) | (25 < number)))
}

// Whether a record is past the limit, or is none that bursts give: with more lines than bytes, with an open line of more, or with a strange number.
fn is_past(c: Stream) -> bool
    ensures { result ≡ is_past c }
{
    (16777216 < c.total) | (c.total < c.lines) | (c.total < c.held) | is_strange(c.number)
}

// The running length with so many bytes more; past the limit, 16777217.
fn running(c: Stream, more: usize) -> usize
    ensures { Running c more result }
{
    if is_past(c) {
        return 16777217;
    }
    if 16777216 - c.total < more {
        return 16777217;
    }
    c.total + more
}

// The record at another running length.
fn at_total(c: Stream, total: usize) -> Stream
    ensures { result ≡ at_total c total }
{
    Stream { total, ..c }
}

// After an open line that is finished: the finished lines of the burst from `at` on are judged, and what is left is the open line.
fn lines_step(state: State, lines: usize, burst: &[u8], at: usize, total: usize) -> Stream
    requires { (at ≤ length burst.now) × (lines + (length burst.now - at) ≤ total) × (length burst.now ≤ total) × (total ≤ 16777216) }
    ensures { (seen result ≡ judged_on state lines (drop at burst.now) total) × (result ≡ lines_on state lines (drop at burst.now) total) }
{
    let left = Stream { total, ..fresh() };
    match judge::judge_lines(state, lines, burst, at) {
        Ok(read) => {
            let rest = &burst[read.at..];
            let mut pending = left.pending;
            push(&mut pending, 0, rest);
            Stream {
                state: read.state,
                lines: read.lines,
                column: line::first_bad(rest).unwrap_or(0),
                pending,
                held: rest.len(),
                ..left
            }
        }
        Err(stop) => Stream {
            state,
            lines: stop.read.lines,
            number: stop.fault.number,
            column: stop.fault.column,
            ..left
        },
    }
}

// A record that is neither past the limit nor refused, a burst further.
fn open_step(c: Stream, burst: &[u8], total: usize) -> Stream
    requires { (c.lines + length burst.now ≤ total) × (c.held + length burst.now ≤ total) × (total ≤ 16777216) × (c.number ≡ 0) × (c.ended ≡ false) }
    ensures { (seen result ≡ arrived_on c burst.now total) × (result ≡ left_on c burst.now total) }
{
    let mut line = c.pending;
    let state = c.state;
    let end = line::find_end(burst, 0);
    let part = &burst[..end];
    push(&mut line, c.held, part);
    let column = bad_column(c.column, c.held, part);
    let held = c.held + end;
    if burst.len() <= end {
        return Stream {
            column,
            total,
            pending: line,
            held,
            ..c
        };
    }
    match open_outcome(state, &line, held, column) {
        Ok(next) => lines_step(next, c.lines + 1, burst, end + 1, total),
        Err(fault) => Stream {
            state,
            lines: c.lines,
            number: fault.number,
            column: fault.column,
            total,
            pending: line,
            held: 0,
            ended: false,
        },
    }
}

// A record brought up to date by a burst, by value. After the end was asked it stays as it is.
pub fn step(c: Stream, burst: &[u8]) -> Stream
    ensures { Stepped c burst.now result }
{
    if c.ended {
        return c;
    }
    let total = running(c, burst.len());
    if 16777216 < total || 0 < c.number {
        return at_total(c, total);
    }
    open_step(c, burst, total)
}

// A burst's answer, from the record it leaves: the number of finished lines so far, or document 01's refusal. A part of the burst, which asked
// alone takes no bytes.
pub fn answer_of(c: Stream) -> Result<usize, Reply>
    ensures { result ≡ answer_of c.ended (seen c) }
{
    if c.ended {
        return Err(judge::bare_reply(23, 0));
    }
    if is_past(c) {
        return Err(judge::bare_reply(1, 0));
    }
    if 0 < c.number {
        return Err(judge::reply_at(c.number, c.lines + 1, c.column));
    }
    Ok(c.lines)
}

// The record after the end was asked.
pub fn close(c: Stream) -> Stream
    ensures { result ≡ closed c }
{
    Stream { ended: true, ..c }
}

// The end's answer, the whole file's: a part of the end, which asked alone does not mark the record.
pub fn reply(c: Stream) -> Reply
    ensures { result ≡ end_reply (seen c) }
{
    if is_past(c) {
        return judge::bare_reply(1, 0);
    }
    if 0 < c.number {
        return judge::reply_at(c.number, c.lines + 1, c.column);
    }
    if c.held == 0 {
        return judge::finish(c.state, c.lines, &[]);
    }
    let Err(fault) = open_fault(c.held, c.column, false) else {
        unreachable!();
    };
    judge::reply_at(fault.number, c.lines + 1, fault.column)
}
