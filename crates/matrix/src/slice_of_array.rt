// Vectors of n rows of four, each at its place in the area: `to`, `from`, `a` and `b` are where a
// vector's first number stands. They are several, so their places are arguments, and clauses say that
// these lie in the area and apart. As slices the area would be split anew for each pair of them, and contracts
// would have to join its parts to say what the whole area is afterwards.
ghost use Rattle.std.specs.Prelude.{◌≡◌, ◌+◌, ◌*◌, ◌≤◌, length};
ghost use Rattle.matrix.specs.Parts.{put, Apart};
ghost use Rattle.matrix.specs.Rows.{rows4, flat4};
ghost use Rattle.matrix.specs.SliceOfArray.{zero_rows, dot_rows, add_scaled_vector, scale_and_add_vec};

use crate::rows::Row;
use vectors::vec4;
use vectors::vec4::Vec4;

// Row by row, as the definition has it. By `fill` one wrong number could not be told from a row of them by an edit.
#[tactic(auto, unfolding(crate::specs::SliceOfArray::zero_rows))]
pub fn set_zero(work: &mut [f64], to: usize, n: usize)
    requires { to + 4 * n ≤ length work.old }
    ensures { work.new ≡ put work.old to (flat4 (zero_rows n)) }
{
    let zero = Vec4::default();
    for i in 0..n {
        zero.store(work, to + 4 * i);
    }
}

// The sum of the rows' products, upward from +0.
#[tactic(auto, unfolding(crate::specs::SliceOfArray::dot_from, crate::specs::Parts::table, crate::specs::SliceOfArray::dot_rows, crate::specs::Rows::rows4))]
pub fn dot(work: &[f64], a: usize, b: usize, n: usize) -> f64
    requires a_in_work { a + 4 * n ≤ length work.now }
    requires b_in_work { b + 4 * n ≤ length work.now }
    ensures { result ≡ dot_rows (rows4 work.now a n) (rows4 work.now b n) }
{
    let mut sum = 0.0;
    for i in 0..n {
        sum += vec4::dot(Vec4::load(work, a + 4 * i), Vec4::load(work, b + 4 * i));
    }
    sum
}

// Row by row: `copy_within` would have the compiled code call memmove, which nothing else needs.
pub fn copy(work: &mut [f64], to: usize, from: usize, n: usize)
    requires to_in_work { to + 4 * n ≤ length work.old }
    requires from_in_work { from + 4 * n ≤ length work.old }
    requires apart { Apart to (4 * n) from (4 * n) }
    ensures { work.new ≡ put work.old to (flat4 (rows4 work.old from n)) }
{
    for i in 0..n {
        Vec4::load(work, from + 4 * i).store(work, to + 4 * i);
    }
}

// The vector at `to` and alpha times the one at `from`.
// One function over a closure for this and the two below would need a definition of what that is told.
pub fn add_scaled_vector(work: &mut [f64], to: usize, alpha: f64, from: usize, n: usize)
    requires to_in_work { to + 4 * n ≤ length work.old }
    requires from_in_work { from + 4 * n ≤ length work.old }
    requires apart { Apart to (4 * n) from (4 * n) }
    ensures { work.new ≡ put work.old to (flat4 (add_scaled_vector (rows4 work.old to n) alpha (rows4 work.old from n))) }
{
    for i in 0..n {
        let u = Vec4::load(work, to + 4 * i);
        let p = Vec4::load(work, from + 4 * i);
        (u + p * alpha).store(work, to + 4 * i);
    }
}

// As `add_scaled_vector`; answers the dot product of the new vector with itself.
pub fn add_scaled_and_square(work: &mut [f64], to: usize, alpha: f64, from: usize, n: usize) -> f64
    requires to_in_work { to + 4 * n ≤ length work.old }
    requires from_in_work { from + 4 * n ≤ length work.old }
    requires apart { Apart to (4 * n) from (4 * n) }
    ensures work_after { work.new ≡ put work.old to (flat4 (add_scaled_vector (rows4 work.old to n) alpha (rows4 work.old from n))) }
    ensures value { result ≡ dot_rows (rows4 work.new to n) (rows4 work.new to n) }
{
    let mut square = 0.0;
    for i in 0..n {
        let a = Vec4::load(work, to + 4 * i);
        let b = Vec4::load(work, from + 4 * i);
        let v = a + b * alpha;
        v.store(work, to + 4 * i);
        square += vec4::dot(v, v);
    }
    square
}

// The vector at `from` and beta times the one at `to`, which is written.
pub fn scale_and_add_vec(work: &mut [f64], to: usize, beta: f64, from: usize, n: usize)
    requires to_in_work { to + 4 * n ≤ length work.old }
    requires from_in_work { from + 4 * n ≤ length work.old }
    requires apart { Apart to (4 * n) from (4 * n) }
    ensures { work.new ≡ put work.old to (flat4 (scale_and_add_vec (rows4 work.old to n) beta (rows4 work.old from n))) }
{
    for i in 0..n {
        let p = Vec4::load(work, to + 4 * i);
        let r = Vec4::load(work, from + 4 * i);
        (r + p * beta).store(work, to + 4 * i);
    }
}
