// The assembled system as a whole: its energy, its gradient and its blocks. Who writes it leaves what stands
// after the vectors. That is said of the area before and after, which no type does, so it is a clause of each.
ghost use Rattle.std.specs.Prelude.{◌≡◌, ◌+◌, ◌*◌, ◌≤◌, ◌<◌, length};
ghost use Rattle.vectors.specs.Number.{plus_zero};
ghost use Rattle.vectors.specs.Vec4.{vec4};
ghost use Rattle.vectors.specs.Mat4.{mat4};
ghost use Rattle.matrix.specs.Parts.{table};
ghost use Rattle.matrix.specs.Layout.{Near};
ghost use Rattle.matrix.specs.Area.{after_vectors};
ghost use Rattle.matrix.specs.System.{every, system_at, system_is_finite};
ghost use Rattle.matrix.specs.HairSystem.{plus_gradient, plus_block, diagonal_plus, with_diagonal};

use crate::area::Work;
use crate::rows::Row;
use crate::vertices::Vertices;
use crate::{area, layout};
use vectors::finite::Finite;
use vectors::mat4::Mat4;
use vectors::vec4::Vec4;

// Whether all n that stand one behind the other from `at` on are finite.
// `all` over the range was tried: its early end takes 1.3 % more instructions.
#[tactic(auto, unfolding(crate::specs::System::every, crate::specs::Parts::table))]
pub fn rows_are_finite<R: Row + Finite>(work: &[f64], at: usize, n: usize) -> bool
    requires { at + R.WIDTH * n ≤ length work.now }
    ensures { result ≡ every R.finite (table n (λ k. R.Row.row work.now (at + R.WIDTH * k))) }
{
    let mut all = true;
    for i in 0..n {
        all &= R::load(work, at + R::WIDTH * i).is_finite();
    }
    all
}

// Whether the energy, the gradient and every block of the system of n vertices are finite.
pub fn is_finite(energy: f64, work: &Work, n: Vertices) -> bool
    ensures { result ≡ system_is_finite energy (system_at n.count work.now) }
{
    Finite::is_finite(energy)
        & rows_are_finite::<Vec4>(work, area::R, n.count)
        & rows_are_finite::<Mat4>(work, 0, 5 * n.count - 6)
}

// v added to the gradient of vertex i. Load, change and store stand here, below and in loads and pins: a
// closure for the change would need a definition of what it is told.
pub(crate) fn add_gradient(work: &mut Work, n: Vertices, i: usize, v: Vec4)
    requires i_lt_n { i < n.count }
    ensures work_after { system_at n.count work.new ≡ plus_gradient n.count i v (system_at n.count work.old) }
    ensures after_vectors_kept { after_vectors work.new ≡ after_vectors work.old }
{
    let at = area::R + 4 * i;
    let g = Vec4::load(work, at);
    (g + v).store(work, at);
}

// m added to the block of row i and column j.
#[tactic(auto, using(crate::proofs::Columns::place_fits))]
pub(crate) fn add_block(work: &mut Work, n: Vertices, i: usize, j: usize, m: Mat4)
    requires near { Near n.count i j }
    ensures work_after { system_at n.count work.new ≡ plus_block n.count i j m (system_at n.count work.old) }
    ensures after_vectors_kept { after_vectors work.new ≡ after_vectors work.old }
{
    let at = 16 * layout::block_place(n, i, j);
    let b = Mat4::load(work, at);
    (b + m).store(work, at);
}

// The block with d on its diagonal, 0 elsewhere.
pub(crate) fn diagonal(d: Vec4) -> Mat4
    ensures { result ≡ mat4 (vec4 d.x plus_zero plus_zero plus_zero) (vec4 plus_zero d.y plus_zero plus_zero) (vec4 plus_zero plus_zero d.z plus_zero) (vec4 plus_zero plus_zero plus_zero d.w) }
{
    let zero = Vec4::default();
    Mat4 {
        c0: Vec4 { x: d.x, ..zero },
        c1: Vec4 { y: d.y, ..zero },
        c2: Vec4 { z: d.z, ..zero },
        c3: Vec4 { w: d.w, ..zero },
    }
}

// c added to the three diagonal entries of positions; the twist's stays.
#[tactic(auto, unfolding(crate::specs::HairSystem::diagonal_plus))]
fn diagonal_plus(m: Mat4, c: f64) -> Mat4
    ensures { result ≡ diagonal_plus c m }
{
    Mat4 {
        c0: Vec4 {
            x: m.c0.x + c,
            ..m.c0
        },
        c1: Vec4 {
            y: m.c1.y + c,
            ..m.c1
        },
        c2: Vec4 {
            z: m.c2.z + c,
            ..m.c2
        },
        c3: m.c3,
    }
}

// c added to the diagonal block of every vertex.
#[inline]
#[tactic(auto, using(crate::proofs::Columns::own_place_fits))]
pub(crate) fn add_to_diagonals(work: &mut Work, n: Vertices, c: f64)
    ensures work_after { system_at n.count work.new ≡ with_diagonal n.count c (system_at n.count work.old) }
    ensures after_vectors_kept { after_vectors work.new ≡ after_vectors work.old }
{
    for i in 0..n.count {
        let at = 16 * layout::block_place(n, i, i);
        let b = Mat4::load(work, at);
        diagonal_plus(b, c).store(work, at);
    }
}
