// Numbers in the usual spelling: the bit pattern of the f64 that each is read as.
// An `as` is proved to lose nothing; where one stands, std has no From between the two types, and `try_from` would ask for an answer to an error that cannot be.
#![tactic(auto)]

ghost use Rattle.std.specs.Prelude.{◌≡◌, ◌+◌, ◌≤◌, min, length};
ghost use Rattle.exact.specs.Bits.{bits_of};
ghost use Rattle.exact.specs.Exact.{with_sign};
ghost use Rattle.usual_values.specs.Usual.{UsualField};
ghost use Rattle.usual_values.specs.Number.{AllDigits, Spelled, PowersTo, place_of, magnitude_at, Magnitude, UsualRead};

// The powers of ten up to 10^22, and up to 10^most where that is less; none is stored (document 02, C-16): the compiler does not know how
// many there are.
pub fn powers(most: usize) -> [f64; 23]
    ensures { PowersTo (min most 22) result }
{
    let last = most.min(22);
    let mut tens = [1.0; 23];
    let mut power = 1.0;
    for k in 0..last {
        power = power * 10.0;
        tens[k + 1] = power;
    }
    tens
}

// The number that the digit m and the digits in these columns spell.
fn digits_number(m: u64, s: &[u8]) -> u64
    requires { (m ≤ 9) × ((length s.now ≤ 13) × AllDigits s.now) }
    ensures { Spelled m s.now result }
{
    let mut c = m;
    for b in s {
        c = c * 10 + u64::from(*b) - 48;
    }
    c
}

// Where a scale stands from -22 on: the exponent, after its sign, less the digits after the point.
fn place_of(down: bool, exponent: usize, after: usize) -> usize
    requires { exponent + after ≤ 22 }
    ensures { result ≡ place_of down exponent after }
{
    if down {
        return 22 - after - exponent;
    }
    22 - after + exponent
}

// The coefficient divided by the power of ten where the scale is below zero, times it otherwise.
fn magnitude_at(coefficient: u64, place: usize, tens: &[f64; 23]) -> f64
    requires { (coefficient ≤ 9007199254740992) × ((place ≤ 44) × PowersTo 22 tens.now) }
    ensures { result ≡ magnitude_at coefficient place }
{
    let c = coefficient as f64;
    if place < 22 {
        let below = 22 - place;
        return c / tens[below];
    }
    let above = place - 22;
    c * tens[above]
}

// The bit pattern of a magnitude with its sign put on.
fn signed_bits(minus: bool, magnitude: f64) -> u64
    requires { Magnitude magnitude }
    ensures { result ≡ bits_of (with_sign minus magnitude) }
{
    let pattern = exact::bits(magnitude);
    if minus {
        return pattern + 9223372036854775808;
    }
    pattern
}

// The bit pattern of the f64 that a field in the usual spelling is read as.
pub fn usual_bits(s: &[u8], tens: &[f64; 23]) -> u64
    requires { UsualField s.now × PowersTo 22 tens.now }
    ensures { UsualRead s.now result }
{
    let past = s.len() - 4;
    let sign = s.len() - 3;
    let last = s.len() - 1;
    let whole = u64::from(s[2]) - 48;
    let c = digits_number(whole, &s[4..past]);
    let place = place_of(s[sign] == 45, usize::from(s[last]) - 48, s.len() - 8);
    signed_bits(s[1] == 45, magnitude_at(c, place, tens))
}
