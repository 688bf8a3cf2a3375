// Dynamic steps of document 01's strand of two vertices.
use crate::run::{self, RATIO, Step};
use bench::answers::Pick;
use std::io;

pub fn show(rt: &impl Print) -> io::Result<()> {
    free(rt, "dynamic step: dt NaN", f64::NAN)?;
    free(rt, "dynamic step: dt infinite", f64::INFINITY)?;
    free(rt, "dynamic step: dt -1", -1.0)?;
    free(rt, "dynamic step: dt 0", 0.0)?;
    free(rt, "dynamic step: dt -0", -0.0)?;
    free(rt, "dynamic step: dt 1/32, no pick", 0.03125)?;
    show_two(rt)
}

// A dynamic step with the usual pick.
fn over(dt: f64) -> Step {
    Step {
        dt: Some(dt),
        stale: f64::INFINITY,
        ..Step::default()
    }
}

// A step without a pick, on a new bench.
fn free(rt: &impl Print, what: &str, dt: f64) -> io::Result<()> {
    let pick = Pick::Nothing;
    run::show_alone(rt, what, Step { pick, ..over(dt) })
}

// Two steps of one strand. Before the second the opposite fills the work area.
fn show_two(rt: &impl Print) -> io::Result<()> {
    let mut bench = run::laid(RATIO, 0);
    let step = over(0.5);
    run::show(rt, "dynamic step: dt 0.5, goal 0.5", &mut bench, step)?;
    let again = Step {
        stale: f64::NEG_INFINITY,
        ..step
    };
    run::show(rt, "dynamic step: again", &mut bench, again)
}
