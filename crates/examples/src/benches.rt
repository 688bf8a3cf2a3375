// A bench as one value, and its calls.
ghost use Rattle.std.specs.Prelude.{◌+◌, ◌≤◌};
ghost use Rattle.bench.specs.declared.areas.TheConstants.{REST, DRAPE, PINS};
ghost use Rattle.examples.specs.declared.benches.TheConstants.{WORK};

use crate::strands::Strand;
use bench::answers::{Pick, StepAnswer};
use bench::refusal::Refusal;
use bench::seats::Record;
use bench::{areas, load, look, pin, steps, unload};
use vectors::vec3::Vec3;

// Numbers in the work area. The bench does not name them; matrix does, and is no library of this program.
pub const WORK: usize = 3264;

// How much of each area a call is lent, at most what a Bench has. A look and its companion are lent all that
// they ask for. Beside the areas, since wrong lengths are among what the examples show; replay has the like of it
// and of a Bench, but no library is of both programs.
#[derive(Clone, Copy)]
pub struct Lengths {
    pub rest: usize,
    pub drape: usize,
    pub pins: usize,
    pub work: usize,
    ghost rest_fits: { rest ≤ REST + 1 },
    ghost drape_fits: { drape ≤ DRAPE + 1 },
    ghost pins_fit: { pins ≤ PINS + 1 },
    ghost work_fits: { work ≤ WORK },
}

// What the bench asks for.
impl Default for Lengths {
    fn default() -> Lengths {
        Lengths {
            rest: areas::REST,
            drape: areas::DRAPE,
            pins: areas::PINS,
            work: WORK,
        }
    }
}

// The record, how much of the areas is lent, and the areas. Those that last have one place more than the
// bench asks for, so that a longer one can be lent.
#[derive(Drop)]
pub struct Bench {
    pub record: Record,
    pub lent: Lengths,
    rest: [f64; areas::REST + 1],
    drape: [f64; areas::DRAPE + 1],
    pub pins: [u8; areas::PINS + 1],
    pub work: [f64; WORK],
}

impl Default for Bench {
    fn default() -> Bench {
        Bench {
            record: Record::default(),
            lent: Lengths::default(),
            rest: [0.0; areas::REST + 1],
            drape: [0.0; areas::DRAPE + 1],
            pins: [0; areas::PINS + 1],
            work: [0.0; WORK],
        }
    }
}

// Where several areas are lent to be written, each is lent as a slice first: the check does not cover fields
// of which parts are lent by an index there.
impl Bench {
    pub fn load(&mut self, seat: usize, strand: Strand) -> Result<(), Refusal> {
        let lent = self.lent;
        self.record = load::load_value(
            self.record,
            &mut self.rest.as_mut_slice()[..lent.rest],
            &mut self.drape.as_mut_slice()[..lent.drape],
            &mut self.pins.as_mut_slice()[..lent.pins],
            seat,
            strand.count,
            strand.settings,
            strand.positions,
            strand.frames,
        )?;
        Ok(())
    }

    pub fn unload(&mut self, seat: usize) -> Result<(), Refusal> {
        let lent = self.lent;
        self.record = unload::unload_value(
            self.record,
            &mut self.rest.as_mut_slice()[..lent.rest],
            &mut self.drape.as_mut_slice()[..lent.drape],
            &mut self.pins.as_mut_slice()[..lent.pins],
            seat,
        )?;
        Ok(())
    }

    pub fn pin(
        &mut self,
        seat: usize,
        vertex: usize,
        component: usize,
        byte: u8,
    ) -> Result<(), Refusal> {
        let lent = self.lent;
        pin::pin(
            self.record,
            &mut self.pins[..lent.pins],
            seat,
            vertex,
            component,
            byte,
        )
    }

    pub fn companion(&self, seat: usize, kind: usize) -> Result<(), Refusal> {
        look::companion(
            self.record,
            &self.rest[..areas::REST],
            &self.drape[..areas::DRAPE],
            seat,
            kind,
        )
    }

    pub fn look(&self, seat: usize, kind: usize) -> &[f64] {
        look::look(
            self.record,
            &self.rest[..areas::REST],
            &self.drape[..areas::DRAPE],
            seat,
            kind,
        )
    }

    // The vector of a vertex among the numbers that a look hands back, if it is there.
    pub fn vector(&self, seat: usize, kind: usize, vertex: usize) -> Option<Vec3> {
        let (vectors, _) = self.look(seat, kind).as_chunks::<3>();
        let [x, y, z] = *vectors.get(vertex)?;
        Some(Vec3 { x, y, z })
    }

    // A static step, or a dynamic one over the time dt.
    pub fn step(&mut self, seat: usize, pick: Pick, dt: Option<f64>) -> StepAnswer {
        let lent = self.lent;
        let rest = &self.rest[..lent.rest];
        let drape = &mut self.drape.as_mut_slice()[..lent.drape];
        let pins = &self.pins[..lent.pins];
        let work = &mut self.work.as_mut_slice()[..lent.work];
        // One arm for each of the bench's two calls.
        match dt {
            None => steps::update_static(self.record, rest, drape, pins, work, seat, pick),
            Some(dt) => {
                steps::update_dynamic(self.record, rest, drape, pins, work, seat, pick, dt)
            }
        }
    }
}
