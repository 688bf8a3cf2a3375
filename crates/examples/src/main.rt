// Runs document 01's examples and the bench's calls through the compiled code and writes what comes
// out, each f64 as the hexadecimal digits of its bits.
#![tactic(auto)]

use crate::print::Bits;
use elements::rod3_darboux::Rod;
use elements::{rod3_darboux, spring3};
use std::io;
use vectors::mat3::Mat3;
use vectors::vec3::Vec3;

mod benches;
mod moves;
mod print;
mod run;
mod seats;
mod stay;
mod steps;
mod strands;

fn main(rt: HostRuntime) -> io::Result<()> {
    show_roots(&rt)?;
    show_stretch(&rt)?;
    show_darboux(&rt)?;
    seats::show(&rt)?;
    stay::show(&rt)?;
    steps::show(&rt)?;
    moves::show(&rt)
}

// Each root beside its number.
fn show_roots(rt: &impl Print) -> io::Result<()> {
    for x in [4.0, 2.0, 5e-324, -0.0, 0.0, f64::INFINITY, -1.0, f64::NAN] {
        println!(rt; "root {} = {}", Bits(x), Bits(roots::sqrt(x)))?;
    }
    Ok(())
}

// P5: the ends are 0 and (2, 0, 0), the length at rest and the stiffness 1.
fn show_stretch(rt: &impl Print) -> io::Result<()> {
    let s = spring3::wdwddw_squared_length_difference(
        1.0,
        at(0.0, 0.0, 0.0),
        at(2.0, 0.0, 0.0),
        1.0,
    );
    println!(rt; "stretch energy {}", Bits(s.w))?;
    println!(rt; "stretch gradient {}", Bits(s.dw0))?;
    println!(rt; "stretch gradient {}", Bits(s.dw1))?;
    println!(rt; "stretch diagonal {}", Bits(diagonal(s.same)))
}

fn diagonal(m: Mat3) -> Vec3 {
    at(m.r0.x, m.r1.y, m.r2.z)
}

fn at(x: f64, y: f64, z: f64) -> Vec3 {
    Vec3 { x, y, z }
}

// P6: a right angle, both frames across it.
fn show_darboux(rt: &impl Print) -> io::Result<()> {
    let up = at(0.0, 0.0, 1.0);
    let rod = Rod {
        p0: at(0.0, 0.0, 0.0),
        p1: at(1.0, 0.0, 0.0),
        p2: at(1.0, 1.0, 0.0),
        x0: up,
        x1: up,
    };
    println!(rt; "darboux vector {}", Bits(rod3_darboux::darboux_rod(rod)))
}
