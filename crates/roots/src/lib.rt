// The square root of an f64, correctly rounded: to nearest, ties to even.
#![tactic(auto)]

mod digits;

ghost use Rattle.std.specs.Prelude.{◌≡◌, not, T, ◌*◌, ◌^◌, ◌≤◌, ◌<◌};
ghost use Rattle.std.specs.Float.{binary64};
ghost use Rattle.std.specs.Float.Ieee.{of_bits, nan_bits};
ghost use Rattle.roots.specs.Sqrt.{sqrt_of};
ghost use Rattle.roots.specs.Steps.{RootBits};

// The bits of the root of m * 2 ^ 52 * 4 ^ h, with m brought to 53 or 54 binary digits. The root of
// m * 2 ^ 52 then has 53, and the first is 1. Added to the exponent's field it raises that by one,
// and a root that rounds up to 2 ^ 53 raises it by two.
fn packed(m: u64, h: u64) -> u64
    requires { (2 ^ 52 ≤ m) × (m < 2 ^ 54) × (h ≤ 2000) }
    ensures { RootBits (m * 2 ^ 52 * 4 ^ h) result }
{
    h * 0x10_0000_0000_0000
        + digits::nearest_root(
            0x40_0000_0000_0000,
            m * 4 - 0x40_0000_0000_0000,
            0x10_0000_0000_0000,
            52,
        )
}

// The same for any m above 0: a subnormal number has fewer digits, and is first brought to 53 or 54.
// A recursion, since the invariant of a loop would say the contract again.
fn scaled(m: u64, h: u64) -> u64
    requires { (0 < m) × (m < 2 ^ 54) × (2 ^ 54 ≤ m * 4 ^ h) × (h ≤ 2000) }
    ensures { RootBits (m * 2 ^ 52 * 4 ^ h) result }
{
    if 0x10_0000_0000_0000 <= m {
        packed(m, h)
    } else {
        scaled(m * 4, h - 1)
    }
}

// The bits of the root of a positive finite number, from its bits: s * 2 ^ k smallest values, s of
// 53 digits for a normal number. An odd k gives one of its twos to s.
fn positive(b: u64) -> u64
    requires { (0 < b) × (b < 0x7ff0_0000_0000_0000) }
    ensures { (of_bits binary64 result ≡ sqrt_of (of_bits binary64 b)) × T (not (nan_bits binary64 result)) }
{
    let field = b / 0x10_0000_0000_0000;
    let fraction = b % 0x10_0000_0000_0000;
    if field == 0 {
        return scaled(fraction, 511);
    }
    let s = fraction + 0x10_0000_0000_0000;
    let k = field - 1;
    packed(digits::chosen(k % 2, s, s * 2), k / 2 + 511)
}

// squareRoot of IEEE 754-2019, for every x.
pub fn sqrt(x: f64) -> f64
    ensures { result ≡ sqrt_of x }
{
    if 0.0 < x {
        let b = f64::to_bits(x);
        if b < 0x7ff0_0000_0000_0000 {
            return f64::from_bits(positive(b));
        }
        return x;
    }
    if x == 0.0 {
        return x;
    }
    f64::NAN
}
