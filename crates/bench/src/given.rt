// Which counts, settings, numbers and edges are taken.
ghost use Rattle.std.specs.Prelude.{◌≡◌, ◌+◌, ◌*◌, ◌≤◌, length};
ghost use Rattle.vectors.specs.Finite.{is_finite};
ghost use Rattle.vectors.specs.Edge.{edge_length};
ghost use Rattle.matrix.specs.Parts.{part};
ghost use Rattle.matrix.specs.Rows.{row3, rows3};
ghost use Rattle.matrix.specs.System.{every};
ghost use Rattle.bench.specs.Strand.{seat_entry};
ghost use Rattle.bench.specs.Given.{good_count, not_negative, good_settings, good_seat, good_record, edges_fit};

use crate::areas;
use crate::seats::{Record, Settings};
use matrix::rows;
use matrix::vertices::Vertices;
use vectors::edge3;
use vectors::finite::Finite;
use vectors::vec3::Vec3;

// From 2 to 32 vertices.
pub fn good_count(n: usize) -> bool
    ensures { result ≡ good_count n }
{
    Vertices::new(n).is_some()
}

// Finite and not below 0; -0 is not below 0.
fn not_negative(x: f64) -> bool
    ensures { result ≡ not_negative x }
{
    Finite::is_finite(x) & !(x < 0.0)
}

#[tactic(auto, unfolding(crate::specs::Given::good_settings, matrix::specs::System::every))]
pub fn good_settings(g: Settings) -> bool
    ensures { result ≡ good_settings g }
{
    not_negative(g.stiff_length)
        & not_negative(g.stiff_bendtwist0)
        & not_negative(g.stiff_bendtwist1)
        & not_negative(g.stiff_bendtwist2)
        & not_negative(g.conv_ratio)
}

// An empty seat, or a count and settings that load takes.
#[tactic(auto, unfolding(crate::specs::Given::good_seat, matrix::specs::System::every))]
fn good_seat(n: usize, g: Settings) -> bool
    ensures { result ≡ good_seat (seat_entry n g) }
{
    (n == 0) | (good_count(n) & good_settings(g))
}

// Every seat is so. A `for` with no early end: every call begins with it, and `zip` and `all` take half a
// hundred instructions more.
#[tactic(auto, unfolding(crate::specs::Given::good_record, matrix::specs::System::every, matrix::specs::Parts::table))]
pub fn good_record(seats: Record) -> bool
    ensures { result ≡ good_record seats }
{
    let mut all = true;
    for i in 0..areas::SEATS {
        all &= good_seat(seats.counts[i], seats.settings[i]);
    }
    all
}

// Whether every number of the list is finite.
#[tactic(auto, unfolding(matrix::specs::System::every, matrix::specs::Parts::table))]
pub(crate) fn numbers_are_finite(list: &[f64]) -> bool
    ensures { result ≡ every is_finite list.now }
{
    list.iter().all(|x| Finite::is_finite(*x))
}

// Whether the n vectors that begin at `at` are finite.
pub(crate) fn vectors_are_finite(list: &[f64], at: usize, n: Vertices) -> bool
    requires { at + 3 * n.count ≤ length list.now }
    ensures { result ≡ every is_finite (part list.now at (3 * n.count)) }
{
    numbers_are_finite(&list[at..at + 3 * n.count])
}

// Whether the edge from vertex i has a length to work with.
fn edge_fits(positions: &[f64], i: usize) -> bool
    requires { 3 * i + 6 ≤ length positions.now }
    ensures { result ≡ (edge_length (row3 positions.now (3 * i)) (row3 positions.now (3 * i + 3))).acceptable }
{
    let (p0, p1): (Vec3, Vec3) = rows::pair(positions, 3 * i);
    edge3::is_acceptable(p0, p1)
}

// Whether every edge between the n vertices has.
#[tactic(auto, unfolding(matrix::specs::System::every, matrix::specs::Parts::table, crate::specs::Given::edges_fit))]
pub(crate) fn edges_fit(positions: &[f64], n: Vertices) -> bool
    requires { 3 * n.count ≤ length positions.now }
    ensures { result ≡ edges_fit n.count (rows3 positions.now 0 n.count) }
{
    (0..n.count - 1).all(|i| edge_fits(positions, i))
}
