// A strand's stay on the last seat, from its load to its unload.
ghost use Rattle.std.specs.Prelude.{◌≤◌, length};

use crate::benches::Bench;
use crate::print::Bits;
use crate::strands::Strand;
use crate::{print, strands};
use bench::areas::PINS;
use bench::refusal;
use bench::refusal::Refusal;
use std::io;

const SEAT: usize = 5;

pub fn show(rt: &impl Print) -> io::Result<()> {
    let mut bench = Bench::default();
    print::answer(rt, "stay: load", load(&mut bench))?;
    show_looks(rt, &bench)?;
    show_pins(rt, &mut bench)?;
    show_bytes(rt, &bench)?;
    print::answer(rt, "stay: load again", load(&mut bench))?;
    print::answer(rt, "stay: unload", bench.unload(SEAT))?;
    show_bytes(rt, &bench)?;
    show_kind(rt, &bench, 2)?;
    print::answer(rt, "stay: unload again", bench.unload(SEAT))
}

// A load of 32 vertices.
fn load(bench: &mut Bench) -> Result<(), Refusal> {
    let xs = strands::row(0, 1.0);
    let fs = strands::row(1, 0.0);
    let strand = Strand {
        count: 32,
        positions: &xs[0..96],
        frames: &fs[0..96],
        ..Strand::default()
    };
    bench.load(SEAT, strand)
}

// What the companion answers for each kind, how many numbers each look hands back, and the first of
// the drape's positions and frames.
fn show_looks(rt: &impl Print, bench: &Bench) -> io::Result<()> {
    for kind in 0..6 {
        show_kind(rt, bench, kind)?;
    }
    show_first(rt, bench, 2)?;
    show_first(rt, bench, 3)
}

fn show_kind(rt: &impl Print, bench: &Bench, kind: usize) -> io::Result<()> {
    let number = refusal::told(bench.companion(SEAT, kind));
    let count = bench.look(SEAT, kind).len();
    println!(rt; "stay: companion {kind} = {number}, numbers of the look = {count}")
}

fn show_first(rt: &impl Print, bench: &Bench, kind: usize) -> io::Result<()> {
    if let Some(v) = bench.vector(SEAT, kind, 0) {
        println!(rt; "stay: look {kind} {}", Bits(v))?;
    }
    Ok(())
}

fn show_pins(rt: &impl Print, bench: &mut Bench) -> io::Result<()> {
    print::answer(rt, "stay: pin 31 3", bench.pin(SEAT, 31, 3, 7))?;
    print::answer(rt, "stay: pin 32 3", bench.pin(SEAT, 32, 3, 7))?;
    print::answer(rt, "stay: pin 31 4", bench.pin(SEAT, 31, 4, 7))
}

// The last byte of the pins, and the sum of all.
fn show_bytes(rt: &impl Print, bench: &Bench) -> io::Result<()> {
    let pins = &bench.pins[..PINS];
    println!(rt; "stay: last pin = {}", pins[PINS - 1])?;
    println!(rt; "stay: sum of the pins = {}", sum(pins))
}

fn sum(pins: &[u8]) -> usize
    requires { length pins.now ≤ 768 }
{
    pins.iter().map(|b| usize::from(*b)).sum()
}
