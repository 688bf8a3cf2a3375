// Static steps of document 01's strand of two vertices, each run on a new bench.
use crate::benches::WORK;
use crate::run::{self, RATIO, Step};
use bench::answers::Pick;
use bench::areas::REST;
use std::io;

pub fn show(rt: &impl Print) -> io::Result<()> {
    show_goals(rt)?;
    show_turns(rt)?;
    show_seats(rt)
}

fn picked(rt: &impl Print, what: &str, pick: Pick) -> io::Result<()> {
    let usual = Step::default();
    run::show_alone(rt, what, Step { pick, ..usual })
}

// A step with a goal for the vertex, in the plane of x and y.
fn pulled(rt: &impl Print, what: &str, vertex: usize, x: f64, y: f64) -> io::Result<()> {
    picked(rt, what, run::pick(vertex, x, y))
}

// A step of the strand with this ratio, and this byte as pin of vertex 1's positions.
fn held(rt: &impl Print, what: &str, ratio: f64, byte: u8) -> io::Result<()> {
    let mut bench = run::laid(ratio, byte);
    run::show(rt, what, &mut bench, Step::default())
}

fn show_goals(rt: &impl Print) -> io::Result<()> {
    pulled(rt, "step: goal 0.5", 1, 0.5, 0.0)?;
    pulled(rt, "step: goal 0", 1, 0.0, 0.0)?;
    pulled(rt, "step: goal -1", 1, -1.0, 0.0)?;
    held(rt, "step: goal 0.5, pinned", RATIO, 1)?;
    picked(rt, "step: no pick", Pick::Nothing)?;
    held(rt, "step: ratio limit 0", 0.0, 0)
}

// Goals that turn the edge until 1 + c is 2^-20, and a little further; picks that are refused.
fn show_turns(rt: &impl Print) -> io::Result<()> {
    pulled(
        rt,
        "step: 1 + c at 2^-20",
        1,
        -0.9999990463256836,
        0.0013810676027326825,
    )?;
    pulled(
        rt,
        "step: 1 + c below 2^-20",
        1,
        -0.9999990463256838,
        0.0013810676025719048,
    )?;
    pulled(rt, "step: goal NaN", 1, f64::NAN, 0.0)?;
    pulled(rt, "step: goal infinite", 1, 0.5, f64::INFINITY)?;
    pulled(rt, "step: pick of vertex 2", 2, 0.5, 0.0)
}

fn seated(rt: &impl Print, what: &str, seat: usize) -> io::Result<()> {
    let usual = Step::default();
    run::show_alone(rt, what, Step { seat, ..usual })
}

fn show_seats(rt: &impl Print) -> io::Result<()> {
    seated(rt, "step: seat 6", 6)?;
    seated(rt, "step: an empty seat", 1)?;
    show_lengths(rt)
}

fn show_lengths(rt: &impl Print) -> io::Result<()> {
    show_short_work(rt)?;
    show_short_rest(rt)
}

// Steps with too little of an area. Length by length: a literal with `..` of what has ghost fields is not
// supported. Not compiled in place, as each bench would lie on the stack below every other step.
#[inline(never)]
fn show_short_work(rt: &impl Print) -> io::Result<()> {
    let mut bench = run::laid(RATIO, 0);
    bench.lent.work = WORK - 1;
    run::show(rt, "step: work one short", &mut bench, Step::default())
}

#[inline(never)]
fn show_short_rest(rt: &impl Print) -> io::Result<()> {
    let mut bench = run::laid(RATIO, 0);
    bench.lent.rest = REST - 1;
    run::show(rt, "step: rest one short", &mut bench, Step::default())
}
