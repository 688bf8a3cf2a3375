// The three numbers of a vertex, each of which its pin keeps.
ghost use Rattle.std.specs.Prelude.{◌≡◌, ◌*◌, ◌<◌};
ghost use Rattle.bench.specs.Update.{vec3_unless_pinned};

use crate::areas::PinPart;
use matrix::pins;
use vectors::vec3::Vec3;

// The old numbers of vertex i where their bytes pin, else the new ones. Apart from matrix's
// `row_unless_fixed`, which has four entries and sets 0. The bound of i is a clause here and at three more:
// a type for it would be made for one call. The four bytes of a vertex are read at their place in the flat list,
// as the definitions and document 01 have them: as a `[u8; 4]` they would bring the law of chunks into the
// proof of each function that reads one, for one index less.
#[tactic(auto, unfolding(crate::specs::Update::vec3_unless_pinned))]
pub(crate) fn vec3_unless_pinned(pins: &PinPart, i: usize, old: Vec3, new: Vec3) -> Vec3
    requires { i < 32 }
    ensures { result ≡ vec3_unless_pinned pins.now (4 * i) old new }
{
    let at = 4 * i;
    Vec3 {
        x: pins::unless_pinned(pins[at], old.x, new.x),
        y: pins::unless_pinned(pins[at + 1], old.y, new.y),
        z: pins::unless_pinned(pins[at + 2], old.z, new.z),
    }
}
