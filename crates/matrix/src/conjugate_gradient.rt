// The solve, by conjugate gradients. An iteration has two halves, between which the solve may end.
ghost use Rattle.std.specs.Prelude.{◌≡◌, false};
ghost use Rattle.vectors.specs.Number.{◌⊘◌, plus_zero, plus_one};
ghost use Rattle.matrix.specs.Rows.{rows4};
ghost use Rattle.matrix.specs.Area.{place_r};
ghost use Rattle.matrix.specs.SparseSquare.{matrix_rows};
ghost use Rattle.matrix.specs.ConjugateGradient.{Kept, vectors_at, solving_at, started, descended, redirected, outcome, iterated, conjugate_gradient};

use crate::area::Work;
use crate::vertices::Vertices;
use crate::{area, root_bound, slice_of_array, sparse_square};

// How a solve ended: the number of iterations, and the last residual's length over the first one's.
#[derive(Clone, Copy)]
pub struct Solve {
    pub count: usize,
    pub ratio: f64,
}

// Along the direction, as far as the residual falls. From the residual's square to its new one. Here and
// below `Kept`, of the area before and after, is a clause: no type says it.
fn descend(work: &mut Work, n: Vertices, rho: f64) -> f64
    ensures vectors_after { solving_at n.count work.new result ≡ descended n.count (matrix_rows work.old n.count) (solving_at n.count work.old rho) }
    ensures kept { Kept n.count work.old work.new }
{
    sparse_square::mult_vec(work, n, area::P, area::AP);
    let pap = slice_of_array::dot(work, area::P, area::AP, n.count);
    let alpha = rho / pap;
    slice_of_array::add_scaled_vector(work, area::U, alpha, area::P, n.count);
    slice_of_array::add_scaled_and_square(work, area::R, -alpha, area::AP, n.count)
}

// The next direction, from the residual's squares before and after the descent.
fn redirect(work: &mut Work, n: Vertices, before: f64, rho: f64)
    ensures vectors_after { solving_at n.count work.new rho ≡ redirected before (solving_at n.count work.old rho) }
    ensures kept { Kept n.count work.old work.new }
{
    slice_of_array::scale_and_add_vec(work, area::P, rho / before, area::R, n.count);
}

// From the residual alone to the state before the first iteration. Answers the residual's square.
fn begin(work: &mut Work, n: Vertices) -> f64
    ensures vectors_after { solving_at n.count work.new result ≡ started n.count (rows4 work.old place_r n.count) }
    ensures kept { Kept n.count work.old work.new }
{
    slice_of_array::set_zero(work, area::U, n.count);
    slice_of_array::set_zero(work, area::AP, n.count);
    slice_of_array::copy(work, area::P, area::R, n.count);
    slice_of_array::dot(work, area::R, area::R, n.count)
}

// At most `limit` iterations, until the ratio is below the tolerance. The root of `square` is the
// last ratio, and 0 before the first.
fn iterate(work: &mut Work, n: Vertices, first: f64, tolerance: f64, limit: usize) -> Solve
    ensures outcome_is { outcome (vectors_at n.count work.new) result.count result.ratio ≡ iterated n.count (matrix_rows work.old n.count) (plus_one ⊘ first) tolerance limit false (outcome (vectors_at n.count work.old) 0 plus_zero) (solving_at n.count work.old first) }
    ensures kept { Kept n.count work.old work.new }
{
    let inverse = 1.0 / first;
    let bound = root_bound::bound_of(tolerance);
    let mut rho = first;
    let mut count = 0;
    let mut square = 0.0;
    // Document 01 has the solve as a loop that ends by `break`.
    loop {
        if limit <= count {
            let ratio = roots::sqrt(square);
            break Solve { count, ratio };
        }
        let next = descend(work, n, rho);
        count += 1;
        square = next * inverse;
        let ratio = root_bound::root_if_below(square, tolerance, bound);
        if ratio < tolerance {
            break Solve { count, ratio };
        }
        redirect(work, n, rho, next);
        rho = next;
    }
}

// The solution, for the residual and the matrix that stand in the area, is left at U; residual,
// direction and product as the last iteration leaves them.
pub fn conjugate_gradient(work: &mut Work, n: Vertices, tolerance: f64, limit: usize) -> Solve
    ensures outcome_is { outcome (vectors_at n.count work.new) result.count result.ratio ≡ conjugate_gradient n.count (matrix_rows work.old n.count) tolerance limit (rows4 work.old place_r n.count) }
    ensures kept { Kept n.count work.old work.new }
{
    let rho = begin(work, n);
    // 2^-52: a residual whose square is below it counts as 0.
    if rho < f64::EPSILON {
        return Solve {
            count: 0,
            ratio: 0.0,
        };
    }
    iterate(work, n, rho, tolerance, limit)
}
