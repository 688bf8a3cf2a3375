// What a step is asked before it begins.
ghost use Rattle.std.specs.Prelude.{◌≡◌, [], ◌∷◌, ◌++◌, true, get_or, IfOk};
ghost use Rattle.bench.specs.Strand.{strand_of, bench_of};
ghost use Rattle.bench.specs.Rows.{first};
ghost use Rattle.bench.specs.Refusals.{told};
ghost use Rattle.bench.specs.Step.{pick_fits, goal_fits};
ghost use Rattle.bench.specs.Asks.{step, lends, call_with, lent_of};
ghost use Rattle.bench.specs.Requests.{asked_rows};
ghost use Rattle.bench.specs.Calls.{lent_long, seat_rows};

use crate::answers::Pick;
use crate::picked::Picked;
use crate::refusal::Refusal;
use crate::seats::Record;
use crate::step::kind::Kind;
use crate::{areas, entry};
use matrix::area;
use vectors::finite::Finite;

// Whether the pick is of one of the n vertices, if there is one.
#[tactic(auto, unfolding(crate::specs::Step::pick_fits))]
fn pick_fits(n: usize, pick: Pick) -> bool
    ensures { result ≡ pick_fits n pick }
{
    match pick {
        Pick::Nothing => true,
        Pick::At(v, _) => v < n,
    }
}

// Whether its goal is finite.
#[tactic(auto, unfolding(crate::specs::Step::goal_fits))]
fn goal_fits(pick: Pick) -> bool
    ensures { result ≡ goal_fits pick }
{
    match pick {
        Pick::Nothing => true,
        Pick::At(_, goal) => goal.is_finite(),
    }
}

// What a step is refused with before it begins, else the strand's vertices with the pick.
pub(crate) fn asked<K: Kind>(
    kind: K,
    seats: &Record,
    rest: &[f64],
    drape: &[f64],
    pins: &[u8],
    work: &[f64],
    seat: usize,
    pick: Pick,
) -> Result<Picked, Refusal>
    ensures number { told result ≡ first (seat_rows (lent_long (lends (step pick (K.time kind))) (lent_of (call_with work.now seat (step pick (K.time kind)))) (bench_of seats.now rest.now drape.now pins.now)) (seat ∷ []) seats.now ++ asked_rows (strand_of seat (bench_of seats.now rest.now drape.now pins.now)) pick (K.time kind)) }
    ensures count { IfOk result (λ p. p.n.count ≡ get_or seats.now.counts seat 0) }
    ensures pick { IfOk result (λ p. p.pick ≡ pick) }
{
    let long = areas::are_whole(rest, drape, pins) & (work.len() == area::NUMBERS);
    let n = entry::taken(seats, long, seat)?;
    if !pick_fits(n.count, pick) {
        return Err(Refusal::Index);
    }
    if !(goal_fits(pick) & kind.fits()) {
        return Err(Refusal::Number);
    }
    Ok(Picked { n, pick })
}
