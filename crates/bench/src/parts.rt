// A part of an area, stored whole.
ghost use Rattle.std.specs.Prelude.{◌≡◌, ◌+◌, ◌*◌, ◌≤◌, length};
ghost use Rattle.matrix.specs.Parts.{part, put};

use matrix::vertices::Vertices;

// The list becomes the part. By `copy_from_slice` the compiled code would call memmove, which nothing else
// needs; after a loop over `iter_mut`, zipped to the list, a proof knows nothing of the part (tried).
pub(crate) fn store(part: &mut [f64], list: &[f64])
    requires { length part.old ≡ length list.now }
    ensures { part.new ≡ list.now }
{
    for (i, x) in list.iter().enumerate() {
        part[i] = *x;
    }
}

// The n vectors that begin at `from` in the list become those that begin at `at` in the area.
pub(crate) fn copy(area: &mut [f64], at: usize, list: &[f64], from: usize, n: Vertices)
    requires area_long { at + 3 * n.count ≤ length area.old }
    requires list_long { from + 3 * n.count ≤ length list.now }
    ensures { area.new ≡ put area.old at (part list.now from (3 * n.count)) }
{
    let k = 3 * n.count;
    store(&mut area[at..at + k], &list[from..from + k]);
}
