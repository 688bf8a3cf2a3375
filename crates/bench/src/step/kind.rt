// The two kinds of step, and what differs between them.
ghost use Rattle.std.specs.Prelude.{◌≡◌, true};
ghost use Rattle.matrix.specs.Area.{after_vectors};
ghost use Rattle.matrix.specs.System.{system_at};
ghost use Rattle.matrix.specs.HairSystem.{staged_shape};
ghost use Rattle.bench.specs.Step.{Time, time_fits, shape_by, timed, drape_is_finite, drape_after, VelocitiesStaged};

use crate::areas::{DrapePart, PinPart};
use matrix::area::Work;
use matrix::vertices::Vertices;

// Drape, pins and n are lent one by one, as the areas are.
pub(crate) trait Kind: Copy {
    ghost time: { Self → Time };

    // Whether its time passes 6.
    fn fits(self) -> bool
        ensures { result ≡ time_fits (time self) };

    // The shape that its system is assembled of is staged.
    fn stage(self, work: &mut Work, drape: &DrapePart, pins: &PinPart, n: Vertices)
        ensures { staged_shape n.count work.new ≡ shape_by (time self) n.count pins.now drape.now };

    // Its inertia, if it has any, is added to the system. What stands behind the vectors is kept: a clause, here
    // and in begin and solve, as it is said of the area before and after, which no type does.
    fn add_inertia(self, work: &mut Work, n: Vertices)
        ensures work_after { system_at n.count work.new ≡ timed (time self) n.count (system_at n.count work.old) }
        ensures after_vectors_kept { after_vectors work.new ≡ after_vectors work.old };

    // Its velocities, if it changes them, are staged; the answer is whether 11 does not decline what the
    // step would leave. A bool, as the definition is; finish names the reason.
    fn stage_end(self, work: &mut Work, drape: &DrapePart, pins: &PinPart, n: Vertices) -> bool
        ensures value { result ≡ drape_is_finite n.count (drape_after (time self) n.count pins.now drape.now (staged_shape n.count work.old)) }
        ensures shape_kept { staged_shape n.count work.new ≡ staged_shape n.count work.old }
        ensures velocities_staged { VelocitiesStaged (time self) n.count pins.now drape.now work.new };

    // What is staged becomes the drape's.
    fn copy(self, drape: &mut DrapePart, work: &Work, pins: &PinPart, n: Vertices)
        requires { VelocitiesStaged (time self) n.count pins.now drape.old work.now }
        ensures { drape.new ≡ drape_after (time self) n.count pins.now drape.old (staged_shape n.count work.now) };
}
