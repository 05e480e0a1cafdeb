// Integer fields of any width.
// An `as` is proved to lose nothing; where one stands, std has no From between the two types, and `try_from` would ask for an answer to an error that cannot be.
#![tactic(auto)]

ghost use Rattle.std.specs.Prelude.{◌≡◌};
ghost use Rattle.integer.specs.Integer.{push, step_integer, end_integer, integer_of};

use text::{blanks_before, is_digit};

// How far a field is read. Phase 0: only blanks so far; 1: a sign; 2: digits; 3: malformed.
// The phase stays a number: `scan_step` and `finish` are public and promise for every one; an enum of four would ask more of callers.
#[derive(Clone, Copy)]
pub struct Scan {
    pub phase: u8,
    pub minus: bool,
    pub size: u64,
}

// An integer: whether a minus stands before it, and its size; -0 is 0.
#[derive(Clone, Copy, Debug, PartialEq, Eq)]
pub struct Integer {
    pub minus: bool,
    pub size: u32,
}

// Why an integer field holds no integer.
#[derive(Clone, Copy, Debug, PartialEq, Eq)]
pub enum IntegerFault {
    Blank,
    Malformed,
    OutOfRange,
}

// The size with one digit more; at 2^32, which is past the range, it stays.
pub fn pushed(m: u64, d: u8) -> u64
    ensures { result ≡ push m d }
{
    let size = m.min(4294967296) * 10 + u64::from(d);
    size.min(4294967296)
}

// A malformed field.
const BAD: Scan = Scan {
    phase: 3,
    minus: false,
    size: 0,
};

// The field read one byte further.
pub fn scan_step(s: Scan, b: u8) -> Scan
    ensures { result ≡ step_integer s b }
{
    if is_digit(b) {
        if s.phase < 3 {
            return Scan {
                phase: 2,
                minus: s.minus,
                size: pushed(s.size, b - 48),
            };
        }
        return BAD;
    }
    if s.phase != 0 {
        return BAD;
    }
    if b == 32 {
        return s;
    }
    if b == 43 {
        return Scan {
            phase: 1,
            minus: false,
            size: 0,
        };
    }
    if b == 45 {
        return Scan {
            phase: 1,
            minus: true,
            size: 0,
        };
    }
    BAD
}

// What a field that is read to its end holds.
pub fn finish(s: Scan) -> Result<Integer, IntegerFault>
    ensures { result ≡ end_integer s }
{
    if s.phase == 0 {
        return Err(IntegerFault::Blank);
    }
    if s.phase != 2 {
        return Err(IntegerFault::Malformed);
    }
    let limit = if s.minus { 2147483648 } else { 2147483647 };
    if limit < s.size {
        return Err(IntegerFault::OutOfRange);
    }
    Ok(Integer {
        minus: s.minus,
        size: s.size as u32,
    })
}

// Nothing but blanks so far.
const START: Scan = Scan {
    phase: 0,
    minus: false,
    size: 0,
};

// What an integer field holds.
pub fn integer_field(s: &[u8]) -> Result<Integer, IntegerFault>
    ensures { result ≡ integer_of s.now }
{
    let rest = &s[blanks_before(s)..];
    finish(rest.iter().fold(START, |st, b| scan_step(st, *b)))
}
