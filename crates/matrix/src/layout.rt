// Where the blocks of a row stand. A row has a block for each of the two vertices before its own
// and the two after, as far as they exist, and then the block of its own vertex.
ghost use Rattle.std.specs.Prelude.{◌≡◌, ◌<◌};
ghost use Rattle.matrix.specs.Layout.{before, after, row_length, row_start, block_place, Near};

use crate::vertices::Vertices;

// How many of the two vertices before vertex i there are.
#[tactic(auto, using(crate::proofs::RowPlaces::before_one, crate::proofs::RowPlaces::before_two))]
pub fn count_before(i: usize) -> usize
    ensures { result ≡ before i }
{
    i.min(2)
}

// How many of the two vertices after vertex i there are, of n vertices.
#[tactic(auto, unfolding(crate::specs::Layout::after))]
pub fn count_after(n: Vertices, i: usize) -> usize
    requires { i < n.count }
    ensures { result ≡ after n.count i }
{
    count_before(n.count - (i + 1))
}

// How many blocks row i has.
#[tactic(auto, using(crate::proofs::RowPlaces::before_le, crate::proofs::RowPlaces::after_le), unfolding(crate::specs::Layout::row_length))]
pub fn row_length(n: Vertices, i: usize) -> usize
    requires { i < n.count }
    ensures { result ≡ row_length n.count i }
{
    count_before(i) + count_after(n, i) + 1
}

// How many blocks stand before row i: up to five for each row above it, less those that the first
// two and the last two rows lack.
pub fn row_start(n: Vertices, i: usize) -> usize
    requires { i < n.count }
    ensures { result ≡ row_start n.count i }
{
    if i < 2 {
        return if i + 1 < n.count { 3 * i } else { 3 * i - 1 };
    }
    if i + 1 < n.count {
        5 * i - 3
    } else {
        5 * i - 4
    }
}

// Where among all blocks the one of row i and column j stands.
#[tactic(auto, using(crate::proofs::Columns::row_places), unfolding(crate::specs::Layout::block_place))]
pub fn block_place(n: Vertices, i: usize, j: usize) -> usize
    requires { Near n.count i j }
    ensures { result ≡ block_place n.count i j }
{
    let start = row_start(n, i);
    let low = count_before(i);
    if j < i {
        return start + (low + j - i);
    }
    if i < j {
        return start + (low + (j - (i + 1)));
    }
    start + (low + count_after(n, i))
}
