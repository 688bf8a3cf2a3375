// The step of one strand, on its seat's parts of the areas: it begins with the system, solves it and
// finishes with what it leaves on the drape.
mod begin;
pub(crate) mod dynamic;
mod finish;
pub(crate) mod kind;
mod solve;
pub(crate) mod still;

ghost use Rattle.std.specs.Prelude.{◌≡◌};
ghost use Rattle.bench.specs.Strand.{strand};
ghost use Rattle.bench.specs.Refusals.{answered};
ghost use Rattle.bench.specs.Step.{update_of, step_answer, step_drape};

use crate::answers::Numbers;
use crate::areas::{DrapePart, PinPart, RestPart};
use crate::picked::Picked;
use crate::refusal::Refusal;
use crate::seats::Settings;
use kind::Kind;
use matrix::area::Work;

// A step of any kind.
pub(crate) fn update<K: Kind>(
    kind: K,
    rest: &RestPart,
    drape: &mut DrapePart,
    pins: &PinPart,
    work: &mut Work,
    p: Picked,
    settings: Settings,
) -> Result<Numbers, Refusal>
    ensures value { answered result ≡ step_answer (update_of (strand p.n.count settings rest.now drape.old pins.now) p.pick (K.time kind)) }
    ensures drape_after { drape.new ≡ step_drape drape.old (update_of (strand p.n.count settings rest.now drape.old pins.now) p.pick (K.time kind)) }
{
    let energy = begin::begin(kind, work, rest, drape, pins, p, settings)?;
    let s = solve::solve(work, pins, p.n, settings.conv_ratio);
    finish::finish(kind, work, drape, pins, p.n, s)?;
    Ok(Numbers {
        energy,
        ratio: s.ratio,
        count: s.count,
    })
}
