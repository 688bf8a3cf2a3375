// A dynamic step: the strand moves on for the time dt.
ghost use Rattle.bench.specs.Step.{over};

use crate::areas::{DrapePart, PinPart};
use crate::step::kind::Kind;
use crate::{areas, given, parts, positions, prediction, rod3_darboux, velocities};
use matrix::area::Work;
use matrix::vertices::Vertices;
use matrix::{area, loads};
use vectors::finite::Finite;

#[derive(Clone, Copy)]
pub(crate) struct Dynamic {
    pub(crate) dt: f64,
}

impl Kind for Dynamic {
    ghost time = { λ k. over k.dt };

    #[tactic(auto, unfolding(crate::specs::Step::time_fits))]
    fn fits(self) -> bool {
        Finite::is_finite(self.dt) & (0.0 < self.dt)
    }

    // The predicted working copy, and the drape's frames, orthonormalised along it.
    fn stage(self, work: &mut Work, drape: &DrapePart, pins: &PinPart, n: Vertices) {
        prediction::predict(work, drape, pins, n, self.dt);
        parts::copy(work, area::FRAMES, drape, areas::FRAMES, n);
        rod3_darboux::orthonormalize_framex_for_hair(work, n);
    }

    #[tactic(auto, unfolding(crate::specs::Step::timed))]
    fn add_inertia(self, work: &mut Work, n: Vertices) {
        loads::add_inertia(work, n, self.dt);
    }

    fn stage_end(self, work: &mut Work, drape: &DrapePart, pins: &PinPart, n: Vertices) -> bool {
        velocities::stage_velocities(work, drape, pins, n, self.dt);
        positions::positions_are_finite(work, drape, pins, n)
            & given::vectors_are_finite(work, area::FRAMES, n)
            & given::vectors_are_finite(work, area::VELOCITIES, n)
    }

    // A pinned position stays.
    fn copy(self, drape: &mut DrapePart, work: &Work, pins: &PinPart, n: Vertices) {
        positions::store_positions(drape, work, pins, n);
        parts::copy(drape, areas::FRAMES, work, area::FRAMES, n);
        parts::copy(drape, areas::VELOCITIES, work, area::VELOCITIES, n);
        parts::copy(drape, areas::WORKING_COPY, work, area::POSITIONS, n);
    }
}
