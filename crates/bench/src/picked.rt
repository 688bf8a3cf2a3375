// A pick of a strand's vertex, beside how many vertices the strand has.
ghost use Rattle.std.specs.Prelude.{◌≡◌, true};
ghost use Rattle.bench.specs.Step.{pick_fits};

use crate::answers::Pick;
use matrix::vertices::Vertices;

// The picked vertex is one of them, if there is one.
#[derive(Clone, Copy)]
pub(crate) struct Picked {
    pub(crate) n: Vertices,
    pub(crate) pick: Pick,
    ghost fits: { pick_fits n.count pick ≡ true },
}
