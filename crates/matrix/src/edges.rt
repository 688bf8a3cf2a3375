// The edges of a strand: their lengths, each taken once, and their frames at rest and as they are
// staged.
ghost use Rattle.std.specs.Prelude.{◌≡◌, ◌+◌, ◌-◌, ◌<◌};
ghost use Rattle.matrix.specs.Rows.{rows3};
ghost use Rattle.matrix.specs.Area.{place_positions};
ghost use Rattle.matrix.specs.HairSystem.{staged_shape};
ghost use Rattle.matrix.specs.Edges.{length_at, edge_lengths, shape_of, frame_at, frames_at};

use crate::area::{Lengths, Work};
use crate::lists::Lists;
use crate::rows::Row;
use crate::vertices::{MOST, Vertices};
use crate::{area, rows};
use elements::rod3_darboux;
use elements::rod3_darboux::EdgeFrame;
use vectors::edge3;
use vectors::vec3::Vec3;

// One edge at rest and as it is staged.
#[derive(Clone, Copy)]
pub struct EdgeFrames {
    pub ini: EdgeFrame,
    pub def: EdgeFrame,
}

// The shape that is staged for n vertices.
#[tactic(auto, unfolding(crate::specs::HairSystem::staged_shape))]
pub fn staged(work: &Work, n: Vertices) -> Lists<'_>
    ensures count { result.n ≡ n }
    ensures value { shape_of result ≡ staged_shape n.count work.now }
{
    Lists {
        n,
        xyz: area::positions(work),
        framex: area::frames(work),
    }
}

// The length of the edge from vertex i. Here and below an index, with its bound, and no `Edge`: that would
// hold the number of vertices a second time.
fn length_at(s: Lists<'_>, i: usize) -> f64
    requires { i + 1 < s.n.count }
    ensures { result ≡ length_at (shape_of s.entry).positions i }
{
    let (p0, p1) = rows::pair(s.xyz, 3 * i);
    edge3::length(p0, p1).value
}

// The lengths of all edges, and 0 after them.
pub fn edge_lengths(s: Lists<'_>) -> Lengths
    ensures { result ≡ edge_lengths (s.entry.n.count - 1) (shape_of s.entry).positions }
{
    let mut lengths = [0.0; MOST];
    for i in 0..s.n.count - 1 {
        lengths[i] = length_at(s, i);
    }
    lengths
}

// The edge from vertex i with its frame; its length is known.
fn frame_at(s: Lists<'_>, i: usize, len: f64) -> EdgeFrame
    requires there { i + 1 < s.n.count }
    requires len_value { len ≡ length_at (shape_of s).positions i }
    ensures { result ≡ frame_at (shape_of s.entry) i }
{
    let (p0, p1) = rows::pair(s.xyz, 3 * i);
    let x = Vec3::load(s.framex, 3 * i);
    rod3_darboux::edge_frame_of_length(p0, p1, x, len)
}

// That edge at rest and as it is staged, by its lengths there.
#[tactic(auto, unfolding(crate::specs::HairSystem::staged_shape, crate::specs::Edges::frames_at))]
pub fn frames_at(work: &Work, rest: Lists<'_>, i: usize, ini: f64, def: f64) -> EdgeFrames
    requires there { i + 1 < rest.n.count }
    requires ini_value { ini ≡ length_at (shape_of rest).positions i }
    requires def_value { def ≡ length_at (rows3 work.now place_positions rest.n.count) i }
    ensures { result ≡ frames_at (shape_of rest.entry) (staged_shape rest.entry.n.count work.now) i }
{
    EdgeFrames {
        ini: frame_at(rest, i, ini),
        def: frame_at(staged(work, rest.n), i, def),
    }
}
