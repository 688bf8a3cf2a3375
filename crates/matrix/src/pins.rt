// Pins: four bytes a vertex, one for each of its three coordinates and one for its twist. Any byte
// but 0 holds the number that it stands for.
ghost use Rattle.std.specs.Prelude.{◌≡◌, ◌+◌, ◌*◌, ◌≤◌, ◌<◌, eqb, length};
ghost use Rattle.matrix.specs.Parts.{put};
ghost use Rattle.matrix.specs.Rows.{rows4, flat4};
ghost use Rattle.matrix.specs.Layout.{Near};
ghost use Rattle.matrix.specs.Area.{after_vectors};
ghost use Rattle.matrix.specs.System.{system_at};
ghost use Rattle.matrix.specs.HairSystem.{same_pair};
ghost use Rattle.matrix.specs.Pins.{unless_pinned, row_unless_fixed, set_fix_dof_to_rhs_vector, block_fixed, pinned_columns};
ghost use Rattle.matrix.specs.Fixed.{fixed_where, with_fixed, with_pins};

use crate::area::Work;
use crate::rows::Row;
use crate::vertices::Vertices;
use crate::{area, layout, system};
use vectors::mat4::Mat4;
use vectors::vec4::Vec4;

// The pins of n vertices.
#[derive(Clone, Copy)]
struct Pins<'a> {
    n: Vertices,
    bytes: &'a [u8],
    ghost long: { 4 * n.count ≤ length bytes.now },
}

// The old value where the byte pins, else the new one.
#[tactic(auto, unfolding(crate::specs::Pins::unless_pinned))]
pub fn unless_pinned<T: Copy>(pin: u8, old: T, new: T) -> T
    ensures { result ≡ unless_pinned pin old new }
{
    if pin == 0 { new } else { old }
}

// The row v with 0 where the pins of vertex i pin.
// A trait with the bench's, of a Vec3 and for the old numbers, would have in both the lines that are here.
#[tactic(auto, unfolding(crate::specs::Pins::row_unless_fixed))]
fn row_unless_fixed(pins: Pins<'_>, i: usize, v: Vec4) -> Vec4
    requires { i < pins.n.count }
    ensures { result ≡ row_unless_fixed pins.entry.bytes.now (4 * i) v }
{
    let at = 4 * i;
    Vec4 {
        x: unless_pinned(pins.bytes[at], 0.0, v.x),
        y: unless_pinned(pins.bytes[at + 1], 0.0, v.y),
        z: unless_pinned(pins.bytes[at + 2], 0.0, v.z),
        w: unless_pinned(pins.bytes[at + 3], 0.0, v.w),
    }
}

// The vector at `to` gets 0 where the pins of its n vertices pin. It is of any vector, as the Rust's is.
fn set_fix_dof_to_rhs_vector(work: &mut Work, to: usize, pins: Pins<'_>)
    requires { to + 4 * pins.n.count ≤ length work.old }
    ensures { work.new ≡ put work.old to (flat4 (set_fix_dof_to_rhs_vector pins.entry.n.count pins.entry.bytes.now (rows4 work.old to pins.entry.n.count))) }
{
    for i in 0..pins.n.count {
        let v = Vec4::load(work, to + 4 * i);
        row_unless_fixed(pins, i, v).store(work, to + 4 * i);
    }
}

// The block m of vertices i and j: the pins of i make its rows 0, and those of j make its columns
// the ones of e.
#[tactic(auto, unfolding(crate::specs::Pins::block_fixed))]
fn block_unless_fixed(pins: Pins<'_>, i: usize, j: usize, e: Mat4, m: Mat4) -> Mat4
    requires i_bound { i < pins.n.count }
    requires j_bound { j < pins.n.count }
    ensures { result ≡ block_fixed pins.entry.bytes.now i j e m }
{
    let from = 4 * j;
    Mat4 {
        c0: unless_pinned(pins.bytes[from], e.c0, row_unless_fixed(pins, i, m.c0)),
        c1: unless_pinned(pins.bytes[from + 1], e.c1, row_unless_fixed(pins, i, m.c1)),
        c2: unless_pinned(pins.bytes[from + 2], e.c2, row_unless_fixed(pins, i, m.c2)),
        c3: unless_pinned(pins.bytes[from + 3], e.c3, row_unless_fixed(pins, i, m.c3)),
    }
}

// What pinned columns become: in the block of a vertex with itself those of the unit matrix, so
// that the equation of a pinned number has its own unknown with factor 1 and no other. Elsewhere 0. The
// one caller hands on a comparison, for which an enum would only be another name.
#[tactic(auto, unfolding(crate::specs::Pins::pinned_columns))]
fn pinned_columns(diagonal: bool) -> Mat4
    ensures { result ≡ pinned_columns diagonal }
{
    let one = if diagonal { 1.0 } else { 0.0 };
    system::diagonal(Vec4 {
        x: one,
        y: one,
        z: one,
        w: one,
    })
}

// The block of row i and column j gets its pins.
#[tactic(auto, using(crate::proofs::Columns::place_fits))]
fn fix_block(work: &mut Work, pins: Pins<'_>, i: usize, j: usize)
    requires { Near pins.n.count i j }
    ensures work_after { system_at pins.entry.n.count work.new ≡ fixed_where pins.entry.n.count pins.entry.bytes.now (same_pair i j) (system_at pins.entry.n.count work.old) }
    ensures after_vectors_kept { after_vectors work.new ≡ after_vectors work.old }
{
    let at = 16 * layout::block_place(pins.n, i, j);
    let b = Mat4::load(work, at);
    let e = pinned_columns(i == j);
    block_unless_fixed(pins, i, j, e, b).store(work, at);
}

// The blocks of row i get their pins, by columns from the first that the row has to the last.
#[tactic(auto, using(crate::proofs::RowPlaces::before_le, crate::proofs::RowPlaces::after_le))]
fn fix_row(work: &mut Work, pins: Pins<'_>, i: usize)
    requires { i < pins.n.count }
    ensures work_after { system_at pins.entry.n.count work.new ≡ fixed_where pins.entry.n.count pins.entry.bytes.now (λ p q. eqb i p) (system_at pins.entry.n.count work.old) }
    ensures after_vectors_kept { after_vectors work.new ≡ after_vectors work.old }
{
    for j in i - layout::count_before(i)..i + layout::count_after(pins.n, i) + 1 {
        fix_block(work, pins, i, j);
    }
}

// The matrix of n vertices gets 0 in the rows and the columns of pinned numbers, and 1 where such a
// row and its own column meet. The gradient stays, and so does what stands after the vectors.
fn set_fixed_bc(work: &mut Work, pins: Pins<'_>)
    ensures work_after { system_at pins.entry.n.count work.new ≡ with_fixed pins.entry.n.count pins.entry.bytes.now (system_at pins.entry.n.count work.old) }
    ensures after_vectors_kept { after_vectors work.new ≡ after_vectors work.old }
{
    for i in 0..pins.n.count {
        fix_row(work, pins, i);
    }
}

// The whole system of n vertices gets its pins, a slice: an array type would ask more of callers.
pub fn fix_system(work: &mut Work, pins: &[u8], n: Vertices)
    requires pins_long { 4 * n.count ≤ length pins.now }
    ensures work_after { system_at n.count work.new ≡ with_pins n.count pins.now (system_at n.count work.old) }
    ensures after_vectors_kept { after_vectors work.new ≡ after_vectors work.old }
{
    let pins = Pins { n, bytes: pins };
    set_fix_dof_to_rhs_vector(work, area::R, pins);
    set_fixed_bc(work, pins);
}
