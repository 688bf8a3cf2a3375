// What the runs of the bench lay on its seats.
ghost use Rattle.std.specs.Prelude.{◌≤◌};

use bench::seats::Settings;

// What a load is given: the number of vertices, the settings and the lists of positions and frames. Document
// 01 has the number beside the lists, so that it can be wrong.
#[derive(Clone, Copy)]
pub struct Strand<'a> {
    pub count: usize,
    pub settings: Settings,
    pub positions: &'a [f64],
    pub frames: &'a [f64],
}

// Two vertices, one apart, which load takes.
impl Default for Strand<'_> {
    fn default() -> Self {
        Strand {
            count: 2,
            settings: settings(1.0, 0.5),
            positions: &[0.0, 0.0, 0.0, 1.0, 0.0, 0.0],
            frames: &[0.0, 1.0, 0.0, 0.0, 1.0, 0.0],
        }
    }
}

// With this stiffness against stretch and this ratio.
pub fn settings(stiffness: f64, ratio: f64) -> Settings {
    Settings {
        stiff_length: stiffness,
        stiff_bendtwist0: 1.0,
        stiff_bendtwist1: 1.0,
        stiff_bendtwist2: 1.0,
        conv_ratio: ratio,
    }
}

// 33 vectors along an axis, the first of length 1 and each longer than the one before by more: with
// row(0, 1.0) as positions, row(1, 0.0) are frames.
pub fn row(axis: usize, more: f64) -> [f64; 99]
    requires { axis ≤ 2 }
{
    let mut xs = [0.0; 99];
    let mut x = 1.0;
    for vector in xs.chunks_exact_mut(3) {
        vector[axis] = x;
        x += more;
    }
    xs
}

// The first n numbers, or all where there are fewer.
pub fn first(xs: &[f64], n: usize) -> &[f64] {
    &xs[..n.min(xs.len())]
}
