// How a strand's staged shape moves.
ghost use Rattle.std.specs.Prelude.{◌≡◌, cond, ◌+◌, ◌*◌, ◌<◌};
ghost use Rattle.vectors.specs.Vec3.{vec3, vec3_normalize, vec3_orthogonalize};
ghost use Rattle.matrix.specs.Parts.{put, table};
ghost use Rattle.matrix.specs.Rows.{rows3, rows4, numbers3, flat3};
ghost use Rattle.matrix.specs.Area.{place_u, place_positions, place_frames};
ghost use Rattle.matrix.specs.HairSystem.{staged_shape, vec3_at};
ghost use Rattle.bench.specs.Update.{edge_at, orthonormalize_framex_for_hair, turn_at, is_turned, turn_fits, turns_fit, turned_frames, moved_at, update_solution_hair};

use crate::areas::PinPart;
use crate::pinned;
use elements::rod3_darboux::turned;
use elements::rod3_darboux::turned::TurnedFrame;
use matrix::area::Work;
use matrix::rows::Row;
use matrix::vertices::{Edge, Vertices};
use matrix::{area, rows};
use vectors::vec3;
use vectors::vec3::Vec3;
use vectors::vec4::Vec4;

// 2^-20: an edge that turns so far that 1 and the cosine come to less has turned back on itself.
const LEAST_TURN: f64 = 9.5367431640625e-7;

// The vector from the edge's first end to its second.
fn along(work: &Work, e: Edge) -> Vec3
    ensures { result ≡ edge_at (rows3 work.now place_positions e.n.count) e.from }
{
    let (p0, p1): (Vec3, Vec3) = rows::pair(work, area::POSITIONS + 3 * e.from);
    p1 - p0
}

// The edge's frame, made a unit vector across it.
fn orthonormal(work: &Work, e: Edge) -> Vec3
    ensures { result ≡ vec3_normalize (vec3_orthogonalize (edge_at (rows3 work.now place_positions e.n.count) e.from) (vec3_at (rows3 work.now place_frames e.n.count) e.from)) }
{
    let x = Vec3::load(work, area::FRAMES + 3 * e.from);
    vec3::normalize(vec3::orthogonalize(along(work, e), x))
}

// Every edge's frame becomes a unit vector across the edge; the last vertex has no edge.
pub(crate) fn orthonormalize_framex_for_hair(work: &mut Work, n: Vertices)
    ensures { work.new ≡ put work.old place_frames (flat3 (orthonormalize_framex_for_hair n.count (rows3 work.old place_positions n.count) (rows3 work.old place_frames n.count))) }
{
    for i in 0..n.count - 1 {
        orthonormal(work, Edge { n, from: i }).store(work, area::FRAMES + 3 * i);
    }
}

// The first three numbers of a row.
fn xyz(v: Vec4) -> Vec3
    ensures { result ≡ vec3 v.x v.y v.z }
{
    let Vec4 { x, y, z, .. } = v;
    Vec3 { x, y, z }
}

// The edge's frame, turned as the solution moves the edge's ends and twists it.
fn turned_frame(work: &Work, e: Edge) -> TurnedFrame
    ensures { result ≡ turn_at (staged_shape e.n.count work.now) (rows4 work.now place_u e.n.count) e.from }
{
    let x = Vec3::load(work, area::FRAMES + 3 * e.from);
    let (a, b): (Vec4, Vec4) = rows::pair(work, area::U + 4 * e.from);
    let dz = xyz(a) - xyz(b);
    turned::updated_rod_frame(x, along(work, e), dz, -a.w)
}

// The edge's frame turns unless its twist is pinned; the answer is whether 10 does not decline it.
fn turn_edge(work: &mut Work, pins: &PinPart, e: Edge) -> bool
    ensures value { result ≡ turn_fits e.n.count pins.now (staged_shape e.n.count work.old) (rows4 work.old place_u e.n.count) e.from }
    ensures work_after { work.new ≡ put work.old (place_frames + 3 * e.from) (numbers3 (cond (is_turned e.n.count pins.now e.from) (turn_at (staged_shape e.n.count work.old) (rows4 work.old place_u e.n.count) e.from).x (vec3_at (rows3 work.old place_frames e.n.count) e.from))) }
{
    if pins[4 * e.from + 3] != 0 {
        return true;
    }
    let t = turned_frame(work, e);
    t.x.store(work, area::FRAMES + 3 * e.from);
    !(t.one_plus_cosine < LEAST_TURN)
}

// Every frame whose twist is not pinned turns; the answer is whether 10 declines none. A bool, here and at
// its caller, and no Result: a frame turns also behind one that 10 declines, the definitions are Bool, and
// finish names the reason.
fn turn_frames(work: &mut Work, pins: &PinPart, n: Vertices) -> bool
    ensures value { result ≡ turns_fit n.count pins.now (staged_shape n.count work.old) (rows4 work.old place_u n.count) }
    ensures work_after { work.new ≡ put work.old place_frames (flat3 (turned_frames n.count pins.now (staged_shape n.count work.old) (rows4 work.old place_u n.count))) }
{
    let mut fit = true;
    for i in 0..n.count - 1 {
        fit &= turn_edge(work, pins, Edge { n, from: i });
    }
    fit
}

// Where the solution moves vertex i; a pinned coordinate stays.
fn moved(work: &Work, pins: &PinPart, n: Vertices, i: usize) -> Vec3
    requires { i < n.count }
    ensures { result ≡ moved_at pins.now (rows3 work.now place_positions n.count) (rows4 work.now place_u n.count) i }
{
    let p = Vec3::load(work, area::POSITIONS + 3 * i);
    let a = Vec4::load(work, area::U + 4 * i);
    pinned::vec3_unless_pinned(pins, i, p, p - xyz(a))
}

// Every vertex moves against the solution.
fn move_vertices(work: &mut Work, pins: &PinPart, n: Vertices)
    ensures { work.new ≡ put work.old place_positions (flat3 (table n.count (moved_at pins.now (rows3 work.old place_positions n.count) (rows4 work.old place_u n.count)))) }
{
    for i in 0..n.count {
        moved(work, pins, n, i).store(work, area::POSITIONS + 3 * i);
    }
}

// The staged shape moves by the solution: the frames turn from the positions as they were, then these
// move. The answer is whether 10 does not decline the step.
pub(crate) fn update_solution_hair(work: &mut Work, pins: &PinPart, n: Vertices) -> bool
    ensures value { result ≡ turns_fit n.count pins.now (staged_shape n.count work.old) (rows4 work.old place_u n.count) }
    ensures work_after { staged_shape n.count work.new ≡ update_solution_hair n.count pins.now (staged_shape n.count work.old) (rows4 work.old place_u n.count) }
{
    let fit = turn_frames(work, pins, n);
    move_vertices(work, pins, n);
    fit
}
