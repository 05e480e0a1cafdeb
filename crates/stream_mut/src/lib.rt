// The standing record lent to a burst and to the end, and both with the record by value.
#![tactic(auto)]

ghost use Rattle.std.specs.Prelude.{◌≡◌};
ghost use Rattle.stream.specs.Stream.{seen, Stepped, answer_of, end_reply, closed};

use judge::Reply;
use stream::Stream;

// A record, and what a burst answered.
#[derive(Clone, Copy)]
pub struct AfterBurst {
    pub stream: Stream,
    pub answer: Result<usize, Reply>,
}

// A record, and what the end answered.
#[derive(Clone, Copy)]
pub struct AfterEnd {
    pub stream: Stream,
    pub reply: Reply,
}

// Brings the lent record up to date by a burst; answers for it.
pub fn burst(c: &mut Stream, bytes: &[u8]) -> Result<usize, Reply>
    ensures { Stepped c.old bytes.now c.new × (result ≡ answer_of c.new.ended (seen c.new)) }
{
    *c = stream::step(*c, bytes);
    stream::answer_of(*c)
}

// The end of the lent record's file: the whole file's answer, asked again too.
pub fn end(c: &mut Stream) -> Reply
    ensures { (c.new ≡ closed c.old) × (result ≡ end_reply (seen c.old)) }
{
    *c = stream::close(*c);
    stream::reply(*c)
}

// A burst, with the record by value.
pub fn after_burst(c: Stream, bytes: &[u8]) -> AfterBurst
    ensures { Stepped c bytes.now result.stream × (result.answer ≡ answer_of result.stream.ended (seen result.stream)) }
{
    let mut stream = c;
    let answer = burst(&mut stream, bytes);
    AfterBurst { stream, answer }
}

// The end, with the record by value.
pub fn after_end(c: Stream) -> AfterEnd
    ensures { (result.stream ≡ closed c) × (result.reply ≡ end_reply (seen c)) }
{
    let mut stream = c;
    let reply = end(&mut stream);
    AfterEnd { stream, reply }
}
