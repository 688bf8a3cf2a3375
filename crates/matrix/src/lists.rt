// The lists that a shape is read from.
ghost use Rattle.std.specs.Prelude.{◌*◌, ◌≤◌, length};

use crate::vertices::Vertices;

// Positions of n vertices, and the frame's x axis at each.
#[derive(Clone, Copy)]
pub struct Lists<'a> {
    pub n: Vertices,
    pub xyz: &'a [f64],
    pub framex: &'a [f64],
    ghost xyz_long: { 3 * n.count ≤ length xyz.now },
    ghost framex_long: { 3 * n.count ≤ length framex.now },
}
