// The whole number nearest to a root, one binary digit a call.
ghost use Rattle.std.specs.Prelude.{◌≡◌, ℕ, ◌+◌, ◌*◌, ◌/◌, ◌^◌, ◌≤◌, ◌<◌};
ghost use Rattle.roots.specs.Steps.{NearestRoot, Partial, radicand};

// The digit step: which binary digit comes next. It is 1 where what that digit adds to the square
// can be taken from the remainder, which holds the radicand's next digits too. A number and no bool, as the
// root is reckoned with it.
fn digit(root: u64, rem: u64, unit: u64) -> u64
    requires { root + unit ≤ 2 ^ 55 }
    ensures { (rem < root + unit → result ≡ 0) × (root + unit ≤ rem → result ≡ 1) }
{
    if rem < root + unit { 0 } else { 1 }
}

// x for the digit 0, y for the digit 1. Compiled to a conditional move. Apart from `unless_pinned` of
// matrix, which is of a pin's byte and promises an equation: neither crate needs the other.
pub fn chosen(digit: u64, x: u64, y: u64) -> u64
    ensures { (digit ≡ 0 → result ≡ x) × (0 < digit → result ≡ y) }
{
    if digit == 0 { x } else { y }
}

// A finished root, given fourfold, to the nearest whole number: up where the remainder, given
// fourfold too, is more than the root.
fn rounded(root: u64, rem: u64) -> u64
    requires { root ≤ 2 ^ 55 }
    ensures { (rem ≤ root → result ≡ root / 4) × (root < rem → result ≡ root / 4 + 1) }
{
    if root < rem { root / 4 + 1 } else { root / 4 }
}

// The whole number nearest to the root of which root and rem are a part, by recursion, as document 01 has it.
// The one call is the last thing done, with its arguments chosen and not branched to, so that it compiles to
// a loop without a branch on the digits.
pub fn nearest_root(root: u64, rem: u64, unit: u64, left: u64) -> u64
    requires { Partial root rem unit left }
    ensures { (n : ℕ) → radicand root rem unit ≡ 16 * n → NearestRoot n result }
{
    if left == 0 {
        return rounded(root, rem);
    }
    let trial = root + unit;
    let bit = digit(root, rem, unit);
    nearest_root(
        chosen(bit, root, trial + unit),
        rem * 2 - chosen(bit, 0, trial * 2),
        unit / 2,
        left - 1,
    )
}
