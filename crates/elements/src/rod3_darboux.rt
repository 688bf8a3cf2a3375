// Bend and twist: the energy of two neighbouring edges by the difference of their Darboux vector,
// which says how the second edge's frame is turned against the first's, from the one at rest.
pub mod bend;
pub mod turned;

ghost use Rattle.std.specs.Prelude.{◌≡◌};
ghost use Rattle.elements.specs.Darboux.{edge_frame, edge_frame_of_length, rod_frame_gradient, no_gradient, add_gradient_of_dot_frame_axis, darboux_denominator, denominator_gradient, darboux_of, darboux_rod, combined_gradient, darboux_axis, cdc_of};

use vectors::mat3::Mat3;
use vectors::vec3::Vec3;
use vectors::{mat3, vec3};

// Three vertices and the frame's x axis at each of the two edges between them.
#[derive(Clone, Copy)]
pub struct Rod {
    pub p0: Vec3,
    pub p1: Vec3,
    pub p2: Vec3,
    pub x0: Vec3,
    pub x1: Vec3,
}

// Three axes across each other, z along the edge.
#[derive(Clone, Copy)]
pub struct RodFrame {
    pub x: Vec3,
    pub y: Vec3,
    pub z: Vec3,
}

#[derive(Clone, Copy)]
pub struct EdgeFrame {
    pub frame: RodFrame,
    pub length: f64,
}

// One axis of a frame, its derivative by the edge (row i: the i-th coordinate) and by the twist.
#[derive(Clone, Copy)]
pub struct FrameAxis {
    pub axis: Vec3,
    pub dv: Mat3,
    pub dt: Vec3,
}

#[derive(Clone, Copy)]
pub struct FrameGradient {
    pub x: FrameAxis,
    pub y: FrameAxis,
    pub z: FrameAxis,
}

// The derivative of a number by the three vertices and the two twists.
#[derive(Clone, Copy, Default)]
pub struct Gradient {
    pub p0: Vec3,
    pub p1: Vec3,
    pub p2: Vec3,
    pub t0: f64,
    pub t1: f64,
}

#[derive(Clone, Copy)]
pub struct DarbouxAxis {
    pub c: f64,
    pub d: Gradient,
}

// The Darboux vector, and the gradient of each of its components.
#[derive(Clone, Copy)]
pub struct DarbouxGradient {
    pub c: Vec3,
    pub d0: Gradient,
    pub d1: Gradient,
    pub d2: Gradient,
}

// The frame of the edge from p0 to p1 whose x axis is x, by a length that is given: its own, where
// that is known. It serves the unit.
#[tactic(auto, unfolding(crate::specs::Darboux::edge_frame_of_length))]
pub fn edge_frame_of_length(p0: Vec3, p1: Vec3, x: Vec3, len: f64) -> EdgeFrame
    ensures { result ≡ edge_frame_of_length p0 p1 x len }
{
    let z = (p1 - p0) * (1.0 / len);
    EdgeFrame {
        frame: RodFrame {
            x,
            y: vec3::cross(z, x),
            z,
        },
        length: len,
    }
}

#[tactic(auto, unfolding(crate::specs::Darboux::edge_frame, crate::specs::Darboux::edge_frame_of_length, vectors::specs::Vec3::vec3_normalize))]
fn edge_frame(p0: Vec3, p1: Vec3, x: Vec3) -> EdgeFrame
    ensures { result ≡ edge_frame p0 p1 x }
{
    edge_frame_of_length(p0, p1, x, vec3::norm(p1 - p0))
}

#[tactic(auto, unfolding(crate::specs::Darboux::rod_frame_gradient))]
pub fn rod_frame_gradient(len: f64, frame: RodFrame) -> FrameGradient
    ensures { result ≡ rod_frame_gradient len frame }
{
    let leninv = 1.0 / len;
    let RodFrame { x, y, z } = frame;
    FrameGradient {
        x: FrameAxis {
            axis: x,
            dv: mat3::from_scaled_outer_product(-leninv, z, x),
            dt: y,
        },
        y: FrameAxis {
            axis: y,
            dv: mat3::from_scaled_outer_product(-leninv, z, y),
            dt: x * -1.0,
        },
        z: FrameAxis {
            axis: z,
            dv: mat3::from_projection_onto_plane(z) * leninv,
            dt: Vec3::default(),
        },
    }
}

// By `default`, and named for the clause that its callers rest on.
#[tactic(auto, unfolding(crate::specs::Darboux::no_gradient))]
fn no_gradient() -> Gradient
    ensures { result ≡ no_gradient }
{
    Gradient::default()
}

// g with c times the gradient of dot(a, b) added, a an axis of the first edge's frame and b one of
// the second's.
#[tactic(auto, unfolding(crate::specs::Darboux::add_gradient_of_dot_frame_axis))]
pub fn add_gradient_of_dot_frame_axis(g: Gradient, c: f64, a: FrameAxis, b: FrameAxis) -> Gradient
    ensures { result ≡ add_gradient_of_dot_frame_axis g c a b }
{
    let s = vec3::mult_mat3_array_of_array(b.axis, a.dv) * c;
    let t = vec3::mult_mat3_array_of_array(a.axis, b.dv) * c;
    Gradient {
        p0: g.p0 - s,
        p1: g.p1 + s - t,
        p2: g.p2 + t,
        t0: g.t0 + c * vec3::dot(b.axis, a.dt),
        t1: g.t1 + c * vec3::dot(a.axis, b.dt),
    }
}

// 1 and the cosines between the axes of both frames.
#[tactic(auto, unfolding(crate::specs::Darboux::darboux_denominator))]
fn darboux_denominator(a: RodFrame, b: RodFrame) -> f64
    ensures { result ≡ darboux_denominator a b }
{
    1.0 + vec3::dot(a.x, b.x) + vec3::dot(a.y, b.y) + vec3::dot(a.z, b.z)
}

#[tactic(auto, unfolding(crate::specs::Darboux::denominator_gradient))]
fn denominator_gradient(a: FrameGradient, b: FrameGradient) -> Gradient
    ensures { result ≡ denominator_gradient a b }
{
    let g0 = add_gradient_of_dot_frame_axis(no_gradient(), 1.0, a.x, b.x);
    let g1 = add_gradient_of_dot_frame_axis(g0, 1.0, a.y, b.y);
    add_gradient_of_dot_frame_axis(g1, 1.0, a.z, b.z)
}

// The Darboux vector of two neighbouring edges by their frames.
#[tactic(auto, unfolding(crate::specs::Darboux::darboux_of))]
pub fn darboux(a: RodFrame, b: RodFrame) -> Vec3
    ensures { result ≡ darboux_of a b }
{
    let s = darboux_denominator(a, b);
    Vec3 {
        x: (vec3::dot(a.y, b.z) - vec3::dot(a.z, b.y)) / s,
        y: (vec3::dot(a.z, b.x) - vec3::dot(a.x, b.z)) / s,
        z: (vec3::dot(a.x, b.y) - vec3::dot(a.y, b.x)) / s,
    }
}

#[tactic(auto, unfolding(crate::specs::Darboux::darboux_rod))]
pub fn darboux_rod(rod: Rod) -> Vec3
    ensures { result ≡ darboux_rod rod }
{
    let a = edge_frame(rod.p0, rod.p1, rod.x0);
    let b = edge_frame(rod.p1, rod.p2, rod.x1);
    darboux(a.frame, b.frame)
}

// t0 times one gradient and t1 times another.
#[tactic(auto, unfolding(crate::specs::Darboux::combined_gradient))]
fn combined(a: Gradient, t0: f64, b: Gradient, t1: f64) -> Gradient
    ensures { result ≡ combined_gradient a t0 b t1 }
{
    Gradient {
        p0: a.p0 * t0 + b.p0 * t1,
        p1: a.p1 * t0 + b.p1 * t1,
        p2: a.p2 * t0 + b.p2 * t1,
        t0: a.t0 * t0 + b.t0 * t1,
        t1: a.t1 * t0 + b.t1 * t1,
    }
}

// One component of the Darboux vector, from the axes j and k of both frames; s is the denominator
// and ds its gradient.
#[tactic(auto, unfolding(crate::specs::Darboux::darboux_axis))]
fn darboux_axis(
    s: f64,
    ds: Gradient,
    aj: FrameAxis,
    ak: FrameAxis,
    bj: FrameAxis,
    bk: FrameAxis,
) -> DarbouxAxis
    ensures { result ≡ darboux_axis s ds aj ak bj bk }
{
    let u = vec3::dot(aj.axis, bk.axis) - vec3::dot(ak.axis, bj.axis);
    let du0 = add_gradient_of_dot_frame_axis(no_gradient(), 1.0, aj, bk);
    let du = add_gradient_of_dot_frame_axis(du0, -1.0, ak, bj);
    DarbouxAxis {
        c: u / s,
        d: combined(du, 1.0 / s, ds, -u / (s * s)),
    }
}

// Two neighbouring edges are given by their frames and lengths.
#[tactic(auto, unfolding(crate::specs::Darboux::cdc_of))]
pub fn cdc_rod_darboux(ea: EdgeFrame, eb: EdgeFrame) -> DarbouxGradient
    ensures { result ≡ cdc_of ea eb }
{
    let a = rod_frame_gradient(ea.length, ea.frame);
    let b = rod_frame_gradient(eb.length, eb.frame);
    let s = darboux_denominator(ea.frame, eb.frame);
    let ds = denominator_gradient(a, b);
    let r0 = darboux_axis(s, ds, a.y, a.z, b.y, b.z);
    let r1 = darboux_axis(s, ds, a.z, a.x, b.z, b.x);
    let r2 = darboux_axis(s, ds, a.x, a.y, b.x, b.y);
    DarbouxGradient {
        c: Vec3 {
            x: r0.c,
            y: r1.c,
            z: r2.c,
        },
        d0: r0.d,
        d1: r1.d,
        d2: r2.d,
    }
}
