// Sine and cosine by fixed recurrences, so that their bits do not depend on a library.
ghost use Rattle.std.specs.Prelude.{◌≡◌, ◌&&◌, false, ◌*◌, ◌%◌, ◌^◌};
ghost use Rattle.std.specs.Float.{nan, binary64};
ghost use Rattle.std.specs.Float.Ieee.{lt, neg, rem};
ghost use Rattle.vectors.specs.Angle.{two_pi, reduced_of, series_of, sine_of, cosine_of};
ghost use Rattle.vectors.specs.Finite.{is_finite};

use crate::finite::Finite;

// Both as document 01 writes them.
const TWO_PI: f64 = 6.283185307179586;

const PI: f64 = 3.141592653589793;

// 2k(2k+1) for k from 1 to 13.
const SINE_DIVISORS: [f64; 13] = [
    6.0, 20.0, 42.0, 72.0, 110.0, 156.0, 210.0, 272.0, 342.0, 420.0, 506.0, 600.0, 702.0,
];

// (2k-1)2k for k from 1 to 14.
const COSINE_DIVISORS: [f64; 14] = [
    2.0, 12.0, 30.0, 56.0, 90.0, 132.0, 182.0, 240.0, 306.0, 380.0, 462.0, 552.0, 650.0, 756.0,
];

// TWO_PI is TURN places of 2 ^ -50 each, and PLACES of them make 1.
const TURN: u64 = 0x19_21FB_5444_2D18;

const PLACES: f64 = 1125899906842624.0;

// s * 2 ^ k places, less whole turns.
fn doubled(s: u64, k: u64) -> u64
    ensures { result ≡ s * 2 ^ k % TURN }
{
    let mut r = s % TURN;
    for _ in 0..k {
        r = r * 2 % TURN;
    }
    r
}

// Whether the angle is within one turn either way.
fn is_within_turn(angle: f64) -> bool
    ensures { result ≡ (lt angle two_pi && lt (neg two_pi) angle) }
{
    (angle < TWO_PI) & (-TWO_PI < angle)
}

// angle % TWO_PI, without that operator: compiled it is a call of `fmod`, of a version that not every C
// library has. A finite angle beyond one turn is a whole number of places, which its bits tell.
fn remainder(angle: f64) -> f64
    ensures { result ≡ rem binary64 angle two_pi }
{
    if is_within_turn(angle) {
        return angle;
    }
    if !Finite::is_finite(angle) {
        return f64::NAN;
    }
    let b = f64::to_bits(angle);
    let field = b % 0x8000_0000_0000_0000 / 0x10_0000_0000_0000;
    let r = doubled(b % 0x10_0000_0000_0000 + 0x10_0000_0000_0000, field - 1025);
    // By `as`: there is no `From` of a u64, and the check proves that r is kept.
    if b < 0x8000_0000_0000_0000 {
        return r as f64 / PLACES;
    }
    -(r as f64) / PLACES
}

// The angle less its whole turns, folded once into the turn from -PI to PI.
#[tactic(auto, unfolding(crate::specs::Angle::reduced_of))]
fn reduced(angle: f64) -> f64
    ensures { result ≡ reduced_of angle }
{
    let a = remainder(angle);
    if PI < a {
        return a - TWO_PI;
    }
    if a < -PI {
        return a + TWO_PI;
    }
    a
}

// The alternating series of z with these divisors, from the last term to the first.
fn series(z: f64, divisors: &[f64]) -> f64
    ensures { result ≡ series_of z divisors.now }
{
    let mut t = 1.0;
    for d in divisors.iter().rev() {
        t = 1.0 - z / *d * t;
    }
    t
}

// The sine of a finite angle; NaN for any other.
pub fn sine(angle: f64) -> f64
    ensures value { result ≡ sine_of angle }
    ensures not_finite { is_finite angle ≡ false → result ≡ nan }
{
    let a = reduced(angle);
    a * series(a * a, &SINE_DIVISORS)
}

// The cosine of a finite angle; NaN for any other.
pub fn cosine(angle: f64) -> f64
    ensures value { result ≡ cosine_of angle }
    ensures not_finite { is_finite angle ≡ false → result ≡ nan }
{
    let a = reduced(angle);
    series(a * a, &COSINE_DIVISORS)
}
