// What stands in an area as a run of numbers: a vector, a row or a block.
ghost use Rattle.std.specs.Prelude.{◌≡◌, ◌+◌, ◌*◌, ◌≤◌, List, ℕ, Float, length};
ghost use Rattle.matrix.specs.Parts.{put};

mod mat4;
mod vec3;
mod vec4;

// So many numbers one behind the other.
pub trait Row: Copy {
    // How many.
    ghost WIDTH: { ℕ };

    // What begins at a place of a list, and the numbers that it is.
    ghost row: { List Float → ℕ → Self };

    ghost numbers: { Self → List Float };

    const WIDTH: usize;

    // What begins at `at`.
    fn load(area: &[f64], at: usize) -> Self
        requires { at + WIDTH ≤ length area.now }
        ensures { result ≡ row area.now at };

    // It becomes what begins at `at`.
    fn store(self, area: &mut [f64], at: usize)
        requires { at + WIDTH ≤ length area.old }
        ensures { area.new ≡ put area.old at (numbers self) };
}

// What begins at `at`, and the one behind it, as the two ends of an edge.
pub fn pair<R: Row>(area: &[f64], at: usize) -> (R, R)
    requires { at + 2 * R.WIDTH ≤ length area.now }
    ensures first { result.0 ≡ R.Row.row area.now at }
    ensures second { result.1 ≡ R.Row.row area.now (at + R.WIDTH) }
{
    (R::load(area, at), R::load(area, at + R::WIDTH))
}
