// The test that ends the solve, with a root only where it can matter: roots keep the order, so from a
// bound near the tolerance's square on none is below the tolerance.
ghost use Rattle.matrix.specs.RootBound.{NoneBelow, RootIfBelow};

// How far the bound lies above the square.
const MARGIN: f64 = 1.0001;

// A number from which on no root is below the tolerance. What is above the rounded square is above
// the exact one too, so that no root is needed to know that its root is not below the tolerance.
pub fn bound_of(tolerance: f64) -> f64
    ensures { NoneBelow tolerance result }
{
    if 0.0 < tolerance {
        let square = tolerance * tolerance;
        let bound = square * MARGIN;
        if square < bound {
            return bound;
        }
        return f64::INFINITY;
    }
    0.0
}

// The root of q where it is below the tolerance; else the root or infinity, and neither is below it.
pub fn root_if_below(q: f64, tolerance: f64, bound: f64) -> f64
    requires { NoneBelow tolerance bound }
    ensures { RootIfBelow q tolerance result }
{
    if bound <= q {
        f64::INFINITY
    } else {
        roots::sqrt(q)
    }
}
