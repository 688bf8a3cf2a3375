// Energy of bend and twist with its gradient and its approximate Hessian: the products of the
// Darboux vector's gradients, without its second derivatives.
ghost use Rattle.std.specs.Prelude.{◌≡◌};
ghost use Rattle.elements.specs.Bend.{entrywise, weighted_sum, bend_node0, bend_node1, bend_node2, bend_gradient, block_sum, with_coupling, bend_block, coupled_of, approx_hessian_of};
ghost use Rattle.elements.specs.Darboux.{cdc_of};

use crate::rod3_darboux;
use crate::rod3_darboux::{DarbouxGradient, EdgeFrame};
use vectors::mat3::Mat3;
use vectors::mat4::Mat4;
use vectors::vec3::Vec3;
use vectors::vec4::Vec4;
use vectors::{mat3, mat4, vec3, vec4};

// What one vertex contributes: the gradients of the three components by its position, and by the
// twist of the edge that begins there. Here and below fields and no arrays of three, as in the records of the
// definitions, so that a contract names them and tells no length.
#[derive(Clone, Copy)]
pub struct BendNode {
    pub g0: Vec3,
    pub g1: Vec3,
    pub g2: Vec3,
    pub t: Vec3,
}

// The blocks of one vertex with each of the three.
#[derive(Clone, Copy)]
pub struct BendRow {
    pub b0: Mat4,
    pub b1: Mat4,
    pub b2: Mat4,
}

// Energy w, its gradient at each vertex (position and twist), and the nine blocks by rows.
#[derive(Clone, Copy)]
pub struct Bend {
    pub w: f64,
    pub dw0: Vec4,
    pub dw1: Vec4,
    pub dw2: Vec4,
    pub row0: BendRow,
    pub row1: BendRow,
    pub row2: BendRow,
}

// The products of position and twist, for each vertex with one twist.
#[derive(Clone, Copy)]
pub struct Couplings {
    pub v0: Vec3,
    pub v1: Vec3,
    pub v2: Vec3,
}

#[tactic(auto, unfolding(crate::specs::Bend::entrywise))]
fn entrywise(a: Vec3, b: Vec3) -> Vec3
    ensures { result ≡ entrywise a b }
{
    Vec3 {
        x: a.x * b.x,
        y: a.y * b.y,
        z: a.z * b.z,
    }
}

// The three gradients of n, each times an entry of s. They are fields of their own and no block, of which
// `vec3::mult_mat3_array_of_array` has the like.
#[tactic(auto, unfolding(crate::specs::Bend::weighted_sum))]
fn weighted_sum(n: BendNode, s: Vec3) -> Vec3
    ensures { result ≡ weighted_sum n s }
{
    vec3::add_three(n.g0 * s.x, n.g1 * s.y, n.g2 * s.z)
}

// One function told the fields by closures was tried: the proof above it did not close, since a closure
// promises field by field. One that is handed the fields is no shorter.
#[tactic(auto, unfolding(crate::specs::Bend::bend_node0))]
fn bend_node0(d: DarbouxGradient) -> BendNode
    ensures { result ≡ bend_node0 d }
{
    BendNode {
        g0: d.d0.p0,
        g1: d.d1.p0,
        g2: d.d2.p0,
        t: Vec3 {
            x: d.d0.t0,
            y: d.d1.t0,
            z: d.d2.t0,
        },
    }
}

#[tactic(auto, unfolding(crate::specs::Bend::bend_node1))]
fn bend_node1(d: DarbouxGradient) -> BendNode
    ensures { result ≡ bend_node1 d }
{
    BendNode {
        g0: d.d0.p1,
        g1: d.d1.p1,
        g2: d.d2.p1,
        t: Vec3 {
            x: d.d0.t1,
            y: d.d1.t1,
            z: d.d2.t1,
        },
    }
}

// No edge begins at the last vertex.
#[tactic(auto, unfolding(crate::specs::Bend::bend_node2))]
fn bend_node2(d: DarbouxGradient) -> BendNode
    ensures { result ≡ bend_node2 d }
{
    BendNode {
        g0: d.d0.p2,
        g1: d.d1.p2,
        g2: d.d2.p2,
        t: Vec3::default(),
    }
}

// The gradient at a vertex where an edge begins.
#[tactic(auto, unfolding(crate::specs::Bend::bend_gradient))]
fn bend_gradient(n: BendNode, kr: Vec3) -> Vec4
    ensures { result ≡ bend_gradient n kr }
{
    vec4::from_vec3(weighted_sum(n, kr), vec3::dot(kr, n.t))
}

// The products of the position gradients of two vertices.
#[tactic(auto, unfolding(crate::specs::Bend::block_sum))]
fn block_sum(k: Vec3, a: BendNode, b: BendNode) -> Mat3
    ensures { result ≡ block_sum k a b }
{
    mat3::add_three(
        mat3::from_scaled_outer_product(k.x, a.g0, b.g0),
        mat3::from_scaled_outer_product(k.y, a.g1, b.g1),
        mat3::from_scaled_outer_product(k.z, a.g2, b.g2),
    )
}

// The block m with the last column, the last row and the number at place 15 set.
#[tactic(auto, unfolding(crate::specs::Bend::with_coupling))]
fn with_coupling(m: Mat4, column: Vec3, row: Vec3, w: f64) -> Mat4
    ensures { result ≡ with_coupling m column row w }
{
    Mat4 {
        c0: Vec4 { w: row.x, ..m.c0 },
        c1: Vec4 { w: row.y, ..m.c1 },
        c2: Vec4 { w: row.z, ..m.c2 },
        c3: vec4::from_vec3(column, w),
    }
}

#[tactic(auto, unfolding(crate::specs::Bend::bend_block))]
fn bend_block(k: Vec3, a: BendNode, b: BendNode, column: Vec3, row: Vec3, w: f64) -> Mat4
    ensures { result ≡ bend_block k a b column row w }
{
    with_coupling(
        mat4::from_mat3_adding_w(block_sum(k, a, b), 0.0),
        column,
        row,
        w,
    )
}

// The three vertices' positions with the twist whose gradient, times the stiffnesses, is kt.
#[tactic(auto, unfolding(crate::specs::Bend::coupled_of))]
fn coupled(n0: BendNode, n1: BendNode, n2: BendNode, kt: Vec3) -> Couplings
    ensures { result ≡ coupled_of n0 n1 n2 kt }
{
    Couplings {
        v0: weighted_sum(n0, kt),
        v1: weighted_sum(n1, kt),
        v2: weighted_sum(n2, kt),
    }
}

// v are the couplings with the first twist, u those with the second. Block (i, j) has that of vertex i
// with twist j as its last column and that of vertex j with twist i as its last row.
fn approx_hessian(d: DarbouxGradient, k: Vec3, darboux0: Vec3) -> Bend
    ensures { result ≡ approx_hessian_of d k darboux0 }
{
    let r = d.c - darboux0;
    let kr = entrywise(k, r);
    let n0 = bend_node0(d);
    let n1 = bend_node1(d);
    let n2 = bend_node2(d);
    let kt0 = entrywise(k, n0.t);
    let kt1 = entrywise(k, n1.t);
    let v = coupled(n0, n1, n2, kt0);
    let u = coupled(n0, n1, n2, kt1);
    // The coupling with the twist that the last vertex does not have.
    let none = Vec3::default();
    Bend {
        w: 0.5 * vec3::dot(kr, r),
        dw0: bend_gradient(n0, kr),
        dw1: bend_gradient(n1, kr),
        dw2: vec4::from_vec3(weighted_sum(n2, kr), 0.0),
        row0: BendRow {
            b0: bend_block(k, n0, n0, v.v0, v.v0, vec3::dot(kt0, n0.t)),
            b1: bend_block(k, n0, n1, u.v0, v.v1, vec3::dot(kt0, n1.t)),
            b2: bend_block(k, n0, n2, none, v.v2, 0.0),
        },
        row1: BendRow {
            b0: bend_block(k, n1, n0, v.v1, u.v0, vec3::dot(kt1, n0.t)),
            b1: bend_block(k, n1, n1, u.v1, u.v1, vec3::dot(kt1, n1.t)),
            b2: bend_block(k, n1, n2, none, u.v2, 0.0),
        },
        row2: BendRow {
            b0: bend_block(k, n2, n0, v.v2, none, 0.0),
            b1: bend_block(k, n2, n1, u.v2, none, 0.0),
            b2: bend_block(k, n2, n2, none, none, 0.0),
        },
    }
}

// Two neighbouring edges are given by their frames and lengths; darboux0 is the vector at rest.
pub fn wdwdwdw_darboux_rod_hair_approx_hessian(
    ea: EdgeFrame,
    eb: EdgeFrame,
    stiff_bendtwist: Vec3,
    darboux0: Vec3,
) -> Bend
    ensures { result ≡ approx_hessian_of (cdc_of ea eb) stiff_bendtwist darboux0 }
{
    let d = rod3_darboux::cdc_rod_darboux(ea, eb);
    approx_hessian(d, stiff_bendtwist, darboux0)
}
