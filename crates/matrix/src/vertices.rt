// How many vertices a strand has, and its edges.
ghost use Rattle.std.specs.Prelude.{◌≡◌, ◌+◌, ◌≤◌, ◌<◌, ◌↔◌, IfSome, IsSome};

// The most that one has.
pub const MOST: usize = 32;

// From 2 to 32.
#[derive(Clone, Copy)]
pub struct Vertices {
    pub count: usize,
    ghost in_range: { (2 ≤ count) × (count ≤ 32) },
}

impl Vertices {
    // None of any other number.
    pub fn new(count: usize) -> Option<Vertices>
        ensures value { IfSome result (λ n. n.count ≡ count) }
        ensures variant { IsSome result ↔ ((2 ≤ count) × (count ≤ 32)) }
    {
        if (2..=MOST).contains(&count) {
            return Some(Vertices { count });
        }
        None
    }
}

// The edge of a strand from one vertex to the next. In layout, system, loads, pins and sparse_square, and in
// bench, the index of one vertex, or of two that are near, has its bound in a clause: a type for it would be
// made for one call.
#[derive(Clone, Copy)]
pub struct Edge {
    pub n: Vertices,
    pub from: usize,
    ghost there: { from + 1 < n.count },
}
