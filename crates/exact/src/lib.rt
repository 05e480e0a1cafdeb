// The f64 of a decimal number, and its bit pattern.
// An `as` is proved to lose nothing; where one stands, std has no From between the two types, and `try_from` would ask for an answer to an error that cannot be.
#![tactic(auto)]

ghost use Rattle.std.specs.Prelude.{◌≡◌, ◌<◌, ◌≤◌};
ghost use Rattle.exact.specs.Exact.{ten_of, magnitude_of, exact_of};
ghost use Rattle.exact.specs.Bits.{bits_of};

// The power of ten, worked out by products with ten, each exact up to 10^22; none is stored (document 02, C-16). Two products a turn:
// with one, the compiler unrolls the loop and lays it out at each caller.
fn ten(scale: usize) -> f64
    requires { scale < 23 }
    ensures { result ≡ ten_of scale }
{
    let mut power = 1.0;
    for _ in 0..scale / 2 {
        power = power * 10.0 * 10.0;
    }
    if scale % 2 == 1 {
        return power * 10.0;
    }
    power
}

// The coefficient divided by the power of ten where the scale is below zero, times it otherwise.
fn magnitude(coefficient: u64, below: bool, scale: u16) -> f64
    requires coefficient_bound { coefficient ≤ 9007199254740992 }
    requires scale_bound { scale ≤ 22 }
    ensures { result ≡ magnitude_of coefficient below scale }
{
    let c = coefficient as f64;
    let t = ten(usize::from(scale));
    if below {
        return c / t;
    }
    c * t
}

// The f64 of a number given by its sign, its coefficient, whether its scale is below zero, and the scale's size; none where the number
// is outside the exact path (document 01's term).
pub fn exact_f64(minus: bool, coefficient: u64, below: bool, scale: u16) -> Option<f64>
    ensures { result ≡ exact_of minus coefficient below scale }
{
    if 9007199254740992 < coefficient {
        return None;
    }
    if 22 < scale {
        return None;
    }
    let m = magnitude(coefficient, below, scale);
    if minus {
        return Some(-m);
    }
    Some(m)
}

// The bit pattern of an f64; one and the same for every NaN.
pub fn bits(x: f64) -> u64
    ensures { result ≡ bits_of x }
{
    if x.is_nan() {
        return 0x7ff8000000000000;
    }
    x.to_bits()
}
