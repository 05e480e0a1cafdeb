// The receiving program of request C-11: standard input judged while it arrives, in bursts of 512 bytes.
#![tactic(auto)]

use judge::Reply;
use std::io;
use std::io::Input;
use stream::Stream;

// The bytes of a burst; each is filled unless the input ends.
const BURST: usize = 512;

// The most bursts that are read: so many full ones have more bytes than a file, and what comes after them cannot change the answer.
const BURSTS: usize = 32769;

// The line of a refusal. `listing` has the same: a shared one would be public, and no contract says what is printed.
fn show_refusal(rt: &impl Print, number: u8, place: usize) -> io::Result<()> {
    println!(rt; "refused {number} at line {place}")
}

// The line after a burst.
fn show_answer(rt: &impl Print, answer: Result<usize, Reply>) -> io::Result<()> {
    match answer {
        Ok(n) => println!(rt; "so far {n}"),
        Err(r) => show_refusal(rt, r.number, r.place),
    }
}

// Reads burst after burst and shows the answer of each; the record that they leave.
fn receive(rt: &(impl Input + Print)) -> io::Result<Stream> {
    let mut record = stream::fresh();
    let mut input = rt.reader();
    let mut burst = [0u8; BURST];
    for _ in 0..BURSTS {
        let n = intake::read_full(&mut input, &mut burst)?;
        if n == 0 {
            return Ok(record);
        }
        let after = stream_mut::after_burst(record, &burst[..n]);
        record = after.stream;
        show_answer(rt, after.answer)?;
        if n < BURST {
            return Ok(record);
        }
    }
    Ok(record)
}

// The end: the whole file's answer.
fn main(rt: HostRuntime) -> io::Result<()> {
    let reply = stream_mut::after_end(receive(&rt)?).reply;
    if 0 < reply.number {
        return show_refusal(&rt, reply.number, reply.place);
    }
    println!(rt; "accepted {}", reply.place)
}
