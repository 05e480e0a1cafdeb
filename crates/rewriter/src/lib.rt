// The rewriter: the sets of a file spelled plainly, into a lent buffer.
// An `as` is proved to lose nothing; where one stands, std has no From between the two types, and `try_from` would ask for an answer to an error that cannot be.
#![tactic(auto)]

ghost use Rattle.std.specs.Prelude.{◌≡◌, ◌+◌, ◌≤◌, leb, length};
ghost use Rattle.judge.specs.Judge.{judged};
ghost use Rattle.rewriter.specs.Rewriter.{digit_or_blank, plain_number, kept_of, head_text, rewritten_file, rewrite_reply, rewrite_out};
ghost use Rattle.rewriter.specs.Body.{body_text, cut_text, last_text, set_at};
ghost use Rattle.rewriter.specs.Run.{bare_in, Bared, Run};
ghost use Rattle.output.specs.Output.{placed};

use judge::Reply;
use output::{put_line, put_text};
use parts::Extent;

// The last digit of a number, a blank where the number is 0.
fn digit_or_blank(v: u32) -> u8
    ensures { result ≡ digit_or_blank v }
{
    if v == 0 {
        return 32;
    }
    48 + (v % 10) as u8
}

// Lays out a dataset number right-aligned in its six columns, with no sign and no leading zeros.
fn plain_number(row: &mut [u8; 6], v: u32)
    ensures { row.new ≡ plain_number v }
{
    *row = [32u8; 6];
    let mut rest = v;
    for i in (0..6).rev() {
        row[i] = digit_or_blank(rest);
        rest /= 10;
    }
}

// How many of the bytes before a line's LF are kept: its columns without the blanks that close them.
fn kept_len(line: &[u8]) -> usize
    ensures { result ≡ length (kept_of line.now) }
{
    let n = line::columns_len(line, true);
    text::text_len(&line[..n])
}

// Whether no LF of the second bytes has a blank or a CR beside it in the first, which stand one before.
fn is_bare(bytes: &[u8], next: &[u8]) -> bool
    ensures { result ≡ bare_in bytes.now next.now }
{
    let mut none = true;
    for (b, c) in bytes.iter().zip(next) {
        none = none & !((*c == 10) & ((*b == 32) | (*b == 13)));
    }
    none
}

// Past blocks of bytes in which no blank and no CR is before an LF, from byte `from` on and before byte `closing`.
fn past_bare(file: &[u8], from: usize, closing: usize) -> usize
    requires { closing ≤ length file.now }
    ensures { Bared file.now from closing result }
{
    let mut at = from;
    if closing <= from {
        return at;
    }
    let text = &file[..closing];
    let next = from + 1;
    for (block, ahead) in text[from..]
        .chunks_exact(64)
        .zip(text[next..].chunks_exact(64))
    {
        if !is_bare(block, ahead) {
            return at;
        }
        at += 64;
    }
    at
}

// Past lines that are kept as they stand, from the one that begins at byte `from` on and before byte `closing`; looked for only where
// `whole` says that the line before them was.
fn past_run(file: &[u8], from: usize, closing: usize, whole: bool) -> usize
    requires { from ≤ length file.now }
    ensures { Run file.now from closing result }
{
    if !whole {
        return from;
    }
    if file.len() < closing {
        return from;
    }
    let stop = past_bare(file, from, closing);
    parts::last_line(file, from, stop + 1)
}

// A length and a putting of each part, two walks: a refused call alters no byte of the buffer, and there is no heap to put it in first.
// The length of what is kept of the lines that begin at byte `from` and stop before byte `closing`.
pub fn body_len(file: &[u8], from: usize, closing: usize) -> usize
    requires { from ≤ length file.now }
    ensures { result ≡ length (body_text closing from file.now) }
{
    let mut n = 0;
    let mut at = from;
    // Each step is a line and the run after it, of any length: no `for` is plainer.
    while at < closing {
        let end = line::find_end(file, at);
        if file.len() <= end {
            return n;
        }
        let kept = kept_len(&file[at..end]);
        let next = end + 1;
        let past = past_run(file, next, closing, kept == end - at);
        n += kept + 1 + (past - next);
        at = past;
    }
    n
}

// Puts what is kept of these lines at byte `at`; answers the byte past it.
pub fn put_body(out: &mut [u8], at: usize, file: &[u8], from: usize, closing: usize) -> usize
    requires { (from ≤ length file.now) × (at + length (body_text closing from file.now) ≤ length out.old) }
    ensures { (result ≡ at + length (body_text closing from file.now)) × (out.new ≡ placed at (body_text closing from file.now) out.old) }
{
    let mut past = at;
    let mut line = from;
    // Each step is a line and the run after it, of any length: no `for` is plainer.
    while line < closing {
        let end = line::find_end(file, line);
        if file.len() <= end {
            return past;
        }
        let stop = line + kept_len(&file[line..end]);
        let put = put_line(out, past, &file[line..stop]);
        let next = end + 1;
        line = past_run(file, next, closing, stop == end);
        past = put_text(out, put, &file[next..line]);
    }
    past
}

// Puts the lines that open a set of this number at byte `at`; answers the byte past them.
pub fn put_head(out: &mut [u8], at: usize, number: u32) -> usize
    requires { at + length (head_text number) ≤ length out.old }
    ensures { (result ≡ at + length (head_text number)) × (out.new ≡ placed at (head_text number) out.old) }
{
    let mut row = [32u8; 6];
    plain_number(&mut row, number);
    let past = put_line(out, at, b"    -1");
    put_line(out, past, &row)
}

// How many bytes are kept of the line that begins at byte `at`, where only so many of it count.
fn cut_len(file: &[u8], at: usize, most: usize) -> usize
    requires { at ≤ length file.now }
    ensures { result ≡ length (cut_text most at file.now) }
{
    let end = line::find_end(file, at);
    let past = at + most.min(end - at);
    kept_len(&file[at..past])
}

// The length of what is kept of that line, none where it does not begin before byte `closing`.
fn last_len(file: &[u8], at: usize, closing: usize, most: usize) -> usize
    requires { (at ≤ length file.now) × (length file.now ≤ 16777216) }
    ensures { result ≡ length (last_text most closing at file.now) }
{
    if closing <= at {
        return 0;
    }
    cut_len(file, at, most) + 1
}

// Puts what is kept of that line at byte `at`; answers the byte past it.
fn put_last(
    out: &mut [u8],
    at: usize,
    file: &[u8],
    line: usize,
    closing: usize,
    most: usize,
) -> usize
    requires { (line ≤ length file.now) × (at + length (last_text most closing line file.now) ≤ length out.old) }
    ensures { (result ≡ at + length (last_text most closing line file.now)) × (out.new ≡ placed at (last_text most closing line file.now) out.old) }
{
    if closing <= line {
        return at;
    }
    let past = line + cut_len(file, line, most);
    put_line(out, at, &file[line..past])
}

// The length of a set rewritten: 14 bytes open it, 7 close it.
fn set_len(file: &[u8], set: Extent) -> usize
    requires { (length file.now ≤ 16777216) × ((set.body ≤ length file.now) × ((set.last ≤ length file.now) × (set.closing ≤ length file.now))) }
    ensures { result ≡ length (set_at file.now set) }
{
    let kept = parts::counted_at(file, set);
    let front = body_len(file, set.body, kept.line);
    front + last_len(file, kept.line, set.closing, kept.past) + 21
}

// Puts a set rewritten at byte `at`; answers the byte past it.
fn put_set(out: &mut [u8], at: usize, file: &[u8], set: Extent) -> usize
    requires { ((set.body ≤ length file.now) × ((set.last ≤ length file.now) × (set.closing ≤ length file.now))) × (at + length (set_at file.now set) ≤ length out.old) }
    ensures { (result ≡ at + length (set_at file.now set)) × (out.new ≡ placed at (set_at file.now set) out.old) }
{
    let kept = parts::counted_at(file, set);
    let opened = put_head(out, at, set.number);
    let last = put_body(out, opened, file, set.body, kept.line);
    let closed = put_last(out, last, file, kept.line, set.closing, kept.past);
    put_line(out, closed, b"    -1")
}

// The length of a file rewritten.
fn rewritten_len(file: &[u8]) -> usize
    requires { length file.now ≤ 16777216 }
    ensures { result ≡ length (rewritten_file file.now) }
{
    let mut n = 0;
    let mut at = 0;
    let mut lines = 0;
    while let Some(set) = parts::next_set(file, at, lines) {
        n += set_len(file, set);
        at = set.past;
        lines = set.through;
    }
    n
}

// Whether a file rewritten has room in so many bytes; it is no longer than it was.
fn has_room(file: &[u8], room: usize) -> bool
    requires { (judged file.now).number ≤ 0 }
    ensures { result ≡ leb (length (rewritten_file file.now)) room }
{
    if file.len() <= room {
        return true;
    }
    rewritten_len(file) <= room
}

// Puts a file rewritten at the first byte; answers the byte past it.
fn put_sets(out: &mut [u8], file: &[u8]) -> usize
    requires { length (rewritten_file file.now) ≤ length out.old }
    ensures { (result ≡ length (rewritten_file file.now)) × (out.new ≡ placed 0 (rewritten_file file.now) out.old) }
{
    let mut past = 0;
    let mut from = 0;
    let mut lines = 0;
    while let Some(set) = parts::next_set(file, from, lines) {
        past = put_set(out, past, file, set);
        from = set.past;
        lines = set.through;
    }
    past
}

// Document 01's rewriter: judges first; 20 where the buffer is too short; otherwise the text is in the buffer, and its length the place.
pub fn rewrite(file: &[u8], out: &mut [u8]) -> Reply
    ensures { (result ≡ rewrite_reply file.now (length out.old)) × (out.new ≡ rewrite_out file.now out.old) }
{
    let found = judge::judge(file);
    if 0 < found.number {
        return found;
    }
    if !has_room(file, out.len()) {
        return judge::bare_reply(20, 0);
    }
    let n = put_sets(out, file);
    judge::bare_reply(0, n)
}
