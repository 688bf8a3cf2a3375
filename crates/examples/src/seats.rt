// Loads, each on a new bench, and the numbers that they answer.
use crate::benches::Bench;
use crate::strands::Strand;
use crate::{print, strands};
use bench::areas::{DRAPE, PINS, REST};
use std::io;

pub fn show(rt: &impl Print) -> io::Result<()> {
    show_counts(rt)?;
    show_seats(rt)?;
    show_lengths(rt)?;
    show_records(rt)?;
    show_lists(rt)?;
    show_numbers(rt)?;
    show_edges(rt)
}

// A load of the strand on seat 0.
fn loaded(rt: &impl Print, what: &str, strand: Strand) -> io::Result<()> {
    let mut bench = Bench::default();
    print::answer(rt, what, bench.load(0, strand))
}

// A load of this many vertices, with this many numbers of positions and of frames.
fn listed(
    rt: &impl Print,
    what: &str,
    count: usize,
    positions: usize,
    frames: usize,
) -> io::Result<()> {
    let xs = strands::row(0, 1.0);
    let fs = strands::row(1, 0.0);
    let strand = Strand {
        count,
        positions: strands::first(&xs, positions),
        frames: strands::first(&fs, frames),
        ..Strand::default()
    };
    loaded(rt, what, strand)
}

fn show_counts(rt: &impl Print) -> io::Result<()> {
    listed(rt, "load of 1 vertex", 1, 3, 3)?;
    listed(rt, "load of 33 vertices", 33, 99, 99)?;
    listed(rt, "load of 32 vertices", 32, 96, 96)?;
    listed(rt, "load of 2 vertices", 2, 6, 6)
}

fn show_lists(rt: &impl Print) -> io::Result<()> {
    listed(rt, "load of positions one short", 2, 5, 6)?;
    listed(rt, "load of frames one short", 2, 6, 5)
}

// A load on the seat, where seat 3 has a count and a stiffness.
fn seated(
    rt: &impl Print,
    what: &str,
    seat: usize,
    count: usize,
    stiffness: f64,
) -> io::Result<()> {
    let mut bench = Bench::default();
    bench.record.counts[3] = count;
    bench.record.settings[3] = strands::settings(stiffness, 0.5);
    print::answer(rt, what, bench.load(seat, Strand::default()))
}

fn show_seats(rt: &impl Print) -> io::Result<()> {
    seated(rt, "load on seat 6", 6, 0, 0.0)?;
    seated(rt, "load on seat 5", 5, 0, 0.0)?;
    seated(rt, "load on a taken seat", 3, 2, 1.0)
}

fn show_records(rt: &impl Print) -> io::Result<()> {
    seated(rt, "load beside count 1", 0, 1, 1.0)?;
    seated(rt, "load on seat 6 beside count 1", 6, 1, 1.0)?;
    seated(rt, "load beside count 33", 0, 33, 1.0)?;
    seated(rt, "load beside a taken seat's NaN", 0, 2, f64::NAN)?;
    seated(rt, "load beside an empty seat's NaN", 0, 0, f64::NAN)
}

// A load of the usual strand on this bench.
fn lent(rt: &impl Print, what: &str, mut bench: Bench) -> io::Result<()> {
    print::answer(rt, what, bench.load(0, Strand::default()))
}

// Length by length: a literal with `..` of what has ghost fields is not supported.
fn show_lengths(rt: &impl Print) -> io::Result<()> {
    let mut bench = Bench::default();
    bench.lent.rest = REST - 1;
    lent(rt, "load with rest one short", bench)?;
    let mut bench = Bench::default();
    bench.lent.rest = REST + 1;
    lent(rt, "load with rest one long", bench)?;
    let mut bench = Bench::default();
    bench.lent.drape = DRAPE - 1;
    lent(rt, "load with drape one short", bench)?;
    let mut bench = Bench::default();
    bench.lent.drape = DRAPE + 1;
    lent(rt, "load with drape one long", bench)?;
    let mut bench = Bench::default();
    bench.lent.pins = PINS - 1;
    lent(rt, "load with pins one short", bench)?;
    let mut bench = Bench::default();
    bench.lent.pins = PINS + 1;
    lent(rt, "load with pins one long", bench)
}

// A load of two vertices, x apart.
fn spaced(rt: &impl Print, what: &str, x: f64) -> io::Result<()> {
    let strand = Strand {
        positions: &[0.0, 0.0, 0.0, x, 0.0, 0.0],
        ..Strand::default()
    };
    loaded(rt, what, strand)
}

// A load with f as the last number of the frames.
fn framed(rt: &impl Print, what: &str, f: f64) -> io::Result<()> {
    let strand = Strand {
        frames: &[0.0, 1.0, 0.0, 0.0, 1.0, f],
        ..Strand::default()
    };
    loaded(rt, what, strand)
}

// A load with this stiffness against stretch and this ratio.
fn tuned(rt: &impl Print, what: &str, stiffness: f64, ratio: f64) -> io::Result<()> {
    let strand = Strand {
        settings: strands::settings(stiffness, ratio),
        ..Strand::default()
    };
    loaded(rt, what, strand)
}

fn show_numbers(rt: &impl Print) -> io::Result<()> {
    spaced(rt, "load of a NaN position", f64::NAN)?;
    framed(rt, "load of an infinite frame number", f64::INFINITY)?;
    tuned(rt, "load with stiffness -1", -1.0, 0.5)?;
    tuned(rt, "load with stiffness -0", -0.0, 0.5)?;
    tuned(rt, "load with ratio NaN", 1.0, f64::NAN)
}

fn show_edges(rt: &impl Print) -> io::Result<()> {
    spaced(rt, "load of vertices at one place", 0.0)?;
    spaced(rt, "load of vertices 1e200 apart", 1e200)
}
