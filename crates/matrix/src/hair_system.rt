// The system of a strand: energy, gradient and matrix of its elements, from the shape at rest and
// the one that stands in the staged parts of the area. Ported from rod3_darboux.rs.
ghost use Rattle.std.specs.Prelude.{◌≡◌, [], ◌+◌, ◌-◌, ◌*◌, ◌≤◌, ◌<◌, length};
ghost use Rattle.vectors.specs.Number.{plus_zero};
ghost use Rattle.vectors.specs.Vec4.{vec4_from_vec3};
ghost use Rattle.matrix.specs.Rows.{rows3};
ghost use Rattle.matrix.specs.Area.{place_positions, after_vectors};
ghost use Rattle.matrix.specs.System.{system_at};
ghost use Rattle.matrix.specs.Edges.{length_at, edge_lengths, shape_of, bend_between, stretch_by, stretches_by};
ghost use Rattle.matrix.specs.HairSystem.{stretch_element, bend_element, shape, staged_shape, bends, plus_gradient, plus_block, plus_element, plus_elements, sum_energies, assembled, hair_energy, hair_system};

use crate::area::{Lengths, Work};
use crate::edges::EdgeFrames;
use crate::lists::Lists;
use crate::vertices::{Edge, Vertices};
use crate::{area, edges, rows, slice_of_array, system};
use elements::rod3_darboux::bend;
use elements::rod3_darboux::bend::{Bend, BendRow};
use elements::spring3::Stretch;
use elements::{rod3_darboux, spring3};
use vectors::mat4::Mat4;
use vectors::vec3::Vec3;
use vectors::vec4::Vec4;
use vectors::{mat4, vec4};

// The stretch of the edge, by its lengths at rest and as it is staged.
fn stretch_at(work: &Work, e: Edge, k: f64, ini: f64, def: f64) -> Stretch
    requires { def ≡ length_at (rows3 work.now place_positions e.n.count) e.from }
    ensures { result ≡ stretch_by (rows3 work.now place_positions e.n.count) k e.from ini }
{
    let (p0, p1) = rows::pair(work, area::POSITIONS + 3 * e.from);
    spring3::stretch_of_length(k, p0, p1, def, ini)
}

// Bend and twist of the edge a and the next one, b.
#[tactic(auto, unfolding(crate::specs::Edges::bend_between))]
fn bend_between(a: EdgeFrames, b: EdgeFrames, k: Vec3) -> Bend
    ensures { result ≡ bend_between a b k }
{
    let darboux0 = rod3_darboux::darboux(a.ini.frame, b.ini.frame);
    bend::wdwdwdw_darboux_rod_hair_approx_hessian(a.def, b.def, k, darboux0)
}

// One end i of the edge: its gradient, with 0 for the twist, and its blocks with both ends.
// Apart from `add_bend_row`, as the functions below are for stretch and bend: a loop over a run of vertices
// or blocks would need its definition and an invariant.
fn add_stretch_row(work: &mut Work, e: Edge, i: usize, g: Vec3, b0: Mat4, b1: Mat4)
    requires { (e.from ≤ i) × (i ≤ e.from + 1) }
    ensures work_after { system_at e.n.count work.new ≡ plus_block e.n.count i (e.from + 1) b1 (plus_block e.n.count i e.from b0 (plus_gradient e.n.count i (vec4_from_vec3 g plus_zero) (system_at e.n.count work.old))) }
    ensures after_vectors_kept { after_vectors work.new ≡ after_vectors work.old }
{
    system::add_gradient(work, e.n, i, vec4::from_vec3(g, 0.0));
    system::add_block(work, e.n, i, e.from, b0);
    system::add_block(work, e.n, i, e.from + 1, b1);
}

// The element's gradients and blocks at the two ends of its edge.
fn add_stretch(work: &mut Work, e: Edge, s: Stretch)
    ensures work_after { system_at e.n.count work.new ≡ plus_element e.n.count (stretch_element e.from s) (system_at e.n.count work.old) }
    ensures after_vectors_kept { after_vectors work.new ≡ after_vectors work.old }
{
    let same = mat4::from_mat3_adding_w(s.same, 0.0);
    let other = mat4::from_mat3_adding_w(s.other, 0.0);
    add_stretch_row(work, e, e.from, s.dw0, same, other);
    add_stretch_row(work, e, e.from + 1, s.dw1, other, same);
}

// One vertex i of the three from k on: its gradient, and its blocks with each of them. k and its bound stand
// here and once below: a type for three vertices would be made for this element.
fn add_bend_row(work: &mut Work, n: Vertices, i: usize, k: usize, g: Vec4, row: BendRow)
    requires k_bound { k + 2 < n.count }
    requires k_le_i { (k ≤ i) × (i ≤ k + 2) }
    ensures work_after { system_at n.count work.new ≡ plus_block n.count i (k + 2) row.b2 (plus_block n.count i (k + 1) row.b1 (plus_block n.count i k row.b0 (plus_gradient n.count i g (system_at n.count work.old)))) }
    ensures after_vectors_kept { after_vectors work.new ≡ after_vectors work.old }
{
    system::add_gradient(work, n, i, g);
    system::add_block(work, n, i, k, row.b0);
    system::add_block(work, n, i, k + 1, row.b1);
    system::add_block(work, n, i, k + 2, row.b2);
}

// The element's gradients and blocks at the three vertices from k on.
fn add_bend(work: &mut Work, n: Vertices, k: usize, e: Bend)
    requires k_bound { k + 2 < n.count }
    ensures work_after { system_at n.count work.new ≡ plus_element n.count (bend_element k e) (system_at n.count work.old) }
    ensures after_vectors_kept { after_vectors work.new ≡ after_vectors work.old }
{
    add_bend_row(work, n, k, k, e.dw0, e.row0);
    add_bend_row(work, n, k + 1, k, e.dw1, e.row1);
    add_bend_row(work, n, k + 2, k, e.dw2, e.row2);
}

// All stretch elements upward, added to the system, and their energies to w; the edges' lengths at
// rest and as they are staged are known.
#[tactic(auto, unfolding(crate::specs::Edges::stretches_by))]
fn add_stretches(work: &mut Work, n: Vertices, ini: &Lengths, def: &Lengths, k: f64, w: f64) -> f64
    requires def_value { def.now ≡ edge_lengths (n.count - 1) (rows3 work.old place_positions n.count) }
    ensures value { result ≡ sum_energies w (stretches_by n.count ini.now (rows3 work.old place_positions n.count) k) }
    ensures work_after { system_at n.count work.new ≡ plus_elements n.count (stretches_by n.count ini.now (rows3 work.old place_positions n.count) k) (system_at n.count work.old) }
    ensures after_vectors_kept { after_vectors work.new ≡ after_vectors work.old }
{
    let mut sum = w;
    for i in 0..n.count - 1 {
        let e = Edge { n, from: i };
        let s = stretch_at(work, e, k, ini[i], def[i]);
        sum += s.w;
        add_stretch(work, e, s);
    }
    sum
}

// All bend elements upward, added to the system, and their energies to w; the edges' lengths at rest
// and as they are staged are known. The second edge of an element is the first of the next.
fn add_bends(work: &mut Work, rest: Lists<'_>, ini: &Lengths, def: &Lengths, k: Vec3, w: f64) -> f64
    requires ini_value { ini.now ≡ edge_lengths (rest.n.count - 1) (shape_of rest).positions }
    requires def_value { def.now ≡ edge_lengths (rest.n.count - 1) (rows3 work.old place_positions rest.n.count) }
    ensures value { result ≡ sum_energies w (bends rest.entry.n.count (shape_of rest.entry) (staged_shape rest.entry.n.count work.old) k) }
    ensures work_after { system_at rest.entry.n.count work.new ≡ plus_elements rest.entry.n.count (bends rest.entry.n.count (shape_of rest.entry) (staged_shape rest.entry.n.count work.old) k) (system_at rest.entry.n.count work.old) }
    ensures after_vectors_kept { after_vectors work.new ≡ after_vectors work.old }
{
    let n = rest.n;
    let mut sum = w;
    let mut a = edges::frames_at(work, rest, 0, ini[0], def[0]);
    for i in 0..n.count - 2 {
        let b = edges::frames_at(work, rest, i + 1, ini[i + 1], def[i + 1]);
        let e = bend_between(a, b, k);
        sum += e.w;
        add_bend(work, n, i, e);
        a = b;
    }
    sum
}

// The system of no element: every number that n vertices use becomes +0.
fn clear(work: &mut Work, n: Vertices)
    ensures work_after { system_at n.count work.new ≡ assembled n.count [] }
    ensures after_vectors_kept { after_vectors work.new ≡ after_vectors work.old }
{
    slice_of_array::set_zero(work, area::R, n.count);
    slice_of_array::set_zero(work, 0, 4 * (5 * n.count - 6));
}

// The system of the strand whose shape is staged, from its rest positions and frames; its energy is
// answered. `rest` and `axes` are slices: array types would ask more of callers, and a
// `Lists` would change how they call.
pub fn wdwddw_hair_system(
    work: &mut Work,
    n: Vertices,
    rest: &[f64],
    axes: &[f64],
    stretch: f64,
    bendtwist: Vec3,
) -> f64
    requires rest_long { 3 * n.count ≤ length rest.now }
    requires axes_long { 3 * n.count ≤ length axes.now }
    ensures value { result ≡ hair_energy n.count (shape (rows3 rest.now 0 n.count) (rows3 axes.now 0 n.count)) (staged_shape n.count work.old) stretch bendtwist }
    ensures work_after { system_at n.count work.new ≡ hair_system n.count (shape (rows3 rest.now 0 n.count) (rows3 axes.now 0 n.count)) (staged_shape n.count work.old) stretch bendtwist }
    ensures after_vectors_kept { after_vectors work.new ≡ after_vectors work.old }
{
    let shape = Lists {
        n,
        xyz: rest,
        framex: axes,
    };
    clear(work, n);
    // Two arrays, each of what one function makes of one shape, and clauses that they are so: the staged lists
    // are lent anew for every edge, as the system before them is written, so no struct can hold both.
    let ini = edges::edge_lengths(shape);
    let def = edges::edge_lengths(edges::staged(work, n));
    let w = add_stretches(work, n, &ini, &def, stretch, 0.0);
    let energy = add_bends(work, shape, &ini, &def, bendtwist, w);
    system::add_to_diagonals(work, n, 0.0);
    energy
}
