// The writer's header: eleven lines of a 58, judged as lines 1 to 11 of a set.
#![tactic(auto)]

ghost use Rattle.std.specs.Prelude.{◌≡◌, true, ◌≤◌};
ghost use Rattle.judge.specs.Judge.{going};
ghost use Rattle.line.specs.Line.{columns, line_fault};
ghost use Rattle.record_table.specs.TypedSets.{header_lines};
ghost use Rattle.header.specs.Header.{result_of, past_fault, header_end, header_of, FirstEleven};

use judge::Reply;
use line::Refusal;
use record_table::HEADER_LINES;
use walk::{Place, State};

// What eleven lines leave: the case of the 58 from 0, and how many numbers it stores.
#[derive(Clone, Copy)]
pub struct Header {
    pub case: usize,
    pub stored: usize,
}

// The refusal of a line past the eleventh: its own, otherwise 8.
fn past_fault(line: &[u8]) -> Refusal
    ensures { result ≡ past_fault (line_fault true (columns true line.now)) }
{
    let n = line::columns_len(line, true);
    if let Err(fault) = line::line_fault(&line[..n], true) {
        return fault;
    }
    Refusal {
        number: 8,
        column: 1,
    }
}

// The end of a header that was not refused before, with the bytes after its last LF.
fn finish(s: State, lines: usize, rest: &[u8]) -> Result<Header, Reply>
    requires { lines ≤ header_lines }
    ensures { result ≡ result_of (header_end (going s lines) rest.now) }
{
    if 0 < rest.len() {
        let Err(fault) = line::line_fault(rest, false) else {
            unreachable!();
        };
        return Err(judge::reply_at(fault.number, lines + 1, fault.column));
    }
    if lines < HEADER_LINES {
        return Err(judge::reply_at(7, lines + 1, 1));
    }
    let Place::Typed(d) = s.place else {
        return Err(judge::bare_reply(7, 0));
    };
    Ok(Header {
        case: d.case,
        stored: d.left,
    })
}

// The byte past the eleventh LF; where there are fewer, the length.
fn past_eleven(header: &[u8]) -> usize
    ensures { FirstEleven header.now result }
{
    let mut at = 0;
    for _ in 0..HEADER_LINES {
        let end = line::find_end(header, at);
        if header.len() <= end {
            return header.len();
        }
        at = end + 1;
    }
    at
}

// The header judged: eleven lines, no more and no fewer.
pub fn judge_header(header: &[u8]) -> Result<Header, Reply>
    ensures { result ≡ result_of (header_of header.now) }
{
    let opened = State {
        place: walk::opened(58),
        sets: 1,
    };
    let past = past_eleven(header);
    let read = match judge::judge_lines(opened, 0, &header[..past], 0) {
        Ok(read) => read,
        Err(stop) => return Err(judge::reply_at(
            stop.fault.number,
            stop.read.lines + 1,
            stop.fault.column,
        )),
    };
    let end = line::find_end(header, read.at);
    if end < header.len() {
        let fault = past_fault(&header[read.at..end]);
        return Err(judge::reply_at(fault.number, read.lines + 1, fault.column));
    }
    finish(read.state, read.lines, &header[read.at..])
}
