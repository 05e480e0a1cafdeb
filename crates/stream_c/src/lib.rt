// A file judged while it arrives, for hosts that hold the standing record as plain data: 16 numbers and a line of 96 bytes. The numbers:
// 0 the place (0 outside sets, 1 where a number line is due, 2 in a plain set, any other in a typed set), 1 to 5 what is due there (kind, at,
// case, left, second), 6 the sets opened, 7 the lines, 8 the refusal's number, 9 the total, 10 how many bytes the open line has, 11 whether
// the end was asked (0: no), 12 the column of the refusal, or of the open line's first byte not allowed, 13 to 15 nothing yet. The line: the first 80
// bytes of the open one, then its last one, then 15 bytes that are nothing yet. What is nothing yet is laid as 0 and not read.
// An `as` is proved to lose nothing; where one stands, std has no From between the two types, and `try_from` would ask for an answer to an error that cannot be.
#![tactic(auto)]

ghost use Rattle.std.specs.Prelude.{◌≡◌, ◌++◌, ◌||◌, ◌≤◌, ltb, length, drop};
ghost use Rattle.stream_c.specs.Lent.{numbers_room, line_room, byte_of, due_of, place_of, stream_of, place_numbers, unused_bytes, Fits, numbers_after, line_after, start_reply, start_numbers, start_line, end_of, end_numbers, same, Burst};
ghost use Rattle.stream.specs.Stream.{paper};

use judge::Reply;
use output::put_text;
use stream::Stream;
use walk::{Due, Place, State};

// The room of a record: so many numbers and so many bytes.
pub const NUMBERS_ROOM: usize = 16;

pub const LINE_ROOM: usize = 96;

// The numbers of a place and of what is due there.
fn place_numbers(place: Place) -> [u64; 6]
    ensures { result ≡ place_numbers place }
{
    match place {
        Place::Outside => [0, 0, 0, 0, 0, 0],
        Place::Number => [1, 0, 0, 0, 0, 0],
        Place::Plain => [2, 0, 0, 0, 0, 0],
        Place::Typed(d) => [
            3,
            d.kind as u64,
            d.at as u64,
            d.case as u64,
            d.left as u64,
            d.second as u64,
        ],
    }
}

// Lays a record's line.
fn put_line(line: &mut [u8], pending: &[u8; 81])
    requires { line_room ≤ length line.old }
    ensures { (line.new ≡ pending.now ++ (unused_bytes ++ drop line_room line.old)) × (length pending.now ≡ 81) }
{
    let past = put_text(line, 0, pending);
    put_text(line, past, &[0u8; LINE_ROOM - 81]);
}

// Lays a record out.
fn put_record(numbers: &mut [u64], line: &mut [u8], c: Stream)
    requires { (numbers_room ≤ length numbers.old) × (line_room ≤ length line.old) }
    ensures { (numbers.new ≡ numbers_after c numbers.old) × (line.new ≡ line_after c line.old) × Fits c }
{
    let counts = [
        u64::from(c.state.sets),
        c.lines as u64,
        u64::from(c.number),
        c.total as u64,
        c.held as u64,
        u64::from(c.ended),
    ];
    numbers[..6].copy_from_slice(&place_numbers(c.state.place));
    numbers[6..12].copy_from_slice(&counts);
    numbers[12..16].copy_from_slice(&[c.column as u64, 0, 0, 0]);
    put_line(line, &c.pending);
}

// What is due in a typed set, from its numbers.
fn due_in(numbers: &[u64]) -> Due
    requires { 6 ≤ length numbers.now }
    ensures { result ≡ due_of numbers.now }
{
    Due {
        kind: numbers[1] as usize,
        at: numbers[2] as usize,
        case: numbers[3] as usize,
        left: numbers[4] as usize,
        second: numbers[5] as usize,
    }
}

// The place, from its numbers.
fn place_in(numbers: &[u64]) -> Place
    requires { 6 ≤ length numbers.now }
    ensures { result ≡ place_of numbers.now }
{
    match numbers[0] {
        0 => Place::Outside,
        1 => Place::Number,
        2 => Place::Plain,
        _ => Place::Typed(due_in(numbers)),
    }
}

// A refusal's number, 255 where it is more.
fn byte_of(n: u64) -> u8
    ensures { result ≡ byte_of n }
{
    n.min(255) as u8
}

// The record, from its numbers and its line.
fn record_in(numbers: &[u64], line: &[u8]) -> Stream
    requires { (numbers_room ≤ length numbers.now) × (line_room ≤ length line.now) }
    ensures { result ≡ stream_of numbers.now line.now }
{
    let mut pending = [0u8; 81];
    pending.copy_from_slice(&line[..81]);
    Stream {
        state: State {
            place: place_in(numbers),
            sets: (numbers[6] % 4294967296) as u32,
        },
        lines: numbers[7] as usize,
        number: byte_of(numbers[8]),
        column: numbers[12] as usize,
        total: numbers[9] as usize,
        pending,
        held: numbers[10] as usize,
        ended: numbers[11] != 0,
    }
}

// Whether so many numbers and bytes are too few for a record.
fn is_short(numbers: usize, line: usize) -> bool
    ensures { result ≡ ltb numbers numbers_room || ltb line line_room }
{
    (numbers < NUMBERS_ROOM) | (line < LINE_ROOM)
}

// The number and the place of an answer; "so far" is 127.
fn reply_of(a: Result<usize, Reply>) -> Reply
    ensures { result ≡ paper a }
{
    match a {
        Ok(lines) => judge::bare_reply(127, lines),
        Err(reply) => reply,
    }
}

// Lays out a record that starts a new file; 20 where the room is too short.
pub fn start(numbers: &mut [u64], line: &mut [u8]) -> Reply
    ensures { (result ≡ start_reply numbers.old line.old) × (numbers.new ≡ start_numbers numbers.old line.old) × (line.new ≡ start_line numbers.old line.old) }
{
    if is_short(numbers.len(), line.len()) {
        return judge::bare_reply(20, 0);
    }
    put_record(numbers, line, stream::fresh());
    judge::bare_reply(0, 0)
}

// Brings the record up to date by a burst, and answers for it; 20 where the room is too short, 23 after the end was asked.
pub fn burst(numbers: &mut [u64], line: &mut [u8], bytes: &[u8]) -> Reply
    ensures { Burst same numbers.old line.old bytes.now numbers.new line.new result }
{
    if is_short(numbers.len(), line.len()) {
        return judge::bare_reply(20, 0);
    }
    if 0 < numbers[11] {
        return judge::bare_reply(23, 0);
    }
    let after = stream_mut::after_burst(record_in(numbers, line), bytes);
    put_record(numbers, line, after.stream);
    reply_of(after.answer)
}

// The whole file's answer, and the record says that the end was asked; 20 where the room is too short.
pub fn end(numbers: &mut [u64], line: &[u8]) -> Reply
    ensures { (result ≡ end_of numbers.old line.now) × (numbers.new ≡ end_numbers numbers.old line.now) }
{
    if is_short(numbers.len(), line.len()) {
        return judge::bare_reply(20, 0);
    }
    let found = stream::reply(record_in(numbers, line));
    numbers[11] = 1;
    found
}
