// Three addends of one type, from the left.
ghost use Rattle.std.specs.Prelude.{◌≡◌};

use std::ops::Add;

// The sum of the first two, and then of that and the third.
pub fn add_three<T: Add<T, Output = T>>(a: T, b: T, c: T) -> T
    requires first { T.can_add a b }
    requires second { (s : T) → T.add_gives a b s → T.can_add s c }
    ensures { (s : T) × T.add_gives a b s × T.add_gives s c result }
{
    a + b + c
}
