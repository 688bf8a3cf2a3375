// A static step: the drape's shape moves towards rest, and nothing else of the drape changes.
ghost use Rattle.bench.specs.Step.{still};

use crate::areas::{DrapePart, PinPart};
use crate::step::kind::Kind;
use crate::{areas, given, parts};
use matrix::area;
use matrix::area::Work;
use matrix::vertices::Vertices;

#[derive(Clone, Copy)]
pub(crate) struct Static;

impl Kind for Static {
    ghost time = { λ _. still };

    #[tactic(auto, unfolding(crate::specs::Step::time_fits))]
    fn fits(self) -> bool {
        true
    }

    fn stage(self, work: &mut Work, drape: &DrapePart, _pins: &PinPart, n: Vertices) {
        parts::copy(work, area::POSITIONS, drape, areas::POSITIONS, n);
        parts::copy(work, area::FRAMES, drape, areas::FRAMES, n);
    }

    #[tactic(auto, unfolding(crate::specs::Step::timed))]
    fn add_inertia(self, _work: &mut Work, _n: Vertices) {}

    fn stage_end(self, work: &mut Work, drape: &DrapePart, _pins: &PinPart, n: Vertices) -> bool {
        given::vectors_are_finite(work, area::POSITIONS, n)
            & given::vectors_are_finite(work, area::FRAMES, n)
            & given::vectors_are_finite(drape, areas::VELOCITIES, n)
    }

    fn copy(self, drape: &mut DrapePart, work: &Work, _pins: &PinPart, n: Vertices) {
        parts::copy(drape, areas::POSITIONS, work, area::POSITIONS, n);
        parts::copy(drape, areas::FRAMES, work, area::FRAMES, n);
    }
}
