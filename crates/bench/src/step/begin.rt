// The beginning of a step: the shape is staged, tested and assembled to a system, which is tested.
ghost use Rattle.std.specs.Prelude.{◌≡◌, IfOk, OnOk};
ghost use Rattle.matrix.specs.Area.{after_vectors};
ghost use Rattle.matrix.specs.System.{system_at};
ghost use Rattle.matrix.specs.HairSystem.{staged_shape};
ghost use Rattle.bench.specs.Given.{edges_fit};
ghost use Rattle.bench.specs.Rows.{first};
ghost use Rattle.bench.specs.Refusals.{told};
ghost use Rattle.bench.specs.Step.{shape_by, with_picked, energy_of, picked_system, begun_with, begin_rows};

use crate::answers::Pick;
use crate::areas::{DrapePart, PinPart, RestPart};
use crate::picked::Picked;
use crate::refusal::Refusal;
use crate::seats::Settings;
use crate::step::kind::Kind;
use crate::{areas, given};
use matrix::area::Work;
use matrix::vertices::Vertices;
use matrix::{area, hair_system, loads, system};
use vectors::vec3::Vec3;

// Whether 7 does not decline the staged positions.
fn staged_edges_fit(work: &Work, n: Vertices) -> bool
    ensures { result ≡ edges_fit n.count (staged_shape n.count work.now).positions }
{
    given::edges_fit(&work[area::POSITIONS..area::FRAMES], n)
}

// The picked vertex is pulled to its goal.
#[tactic(auto, unfolding(crate::specs::Step::pick_fits, crate::specs::Step::with_picked, matrix::specs::HairSystem::staged_shape))]
fn add_picked(work: &mut Work, p: Picked)
    ensures work_after { system_at p.n.count work.new ≡ with_picked p.n.count (staged_shape p.n.count work.old).positions p.pick (system_at p.n.count work.old) }
    ensures after_vectors_kept { after_vectors work.new ≡ after_vectors work.old }
{
    match p.pick {
        Pick::Nothing => {}
        Pick::At(v, goal) => loads::add_pick(work, p.n, v, goal),
    }
}

// The staged shape's system, with the pick; the answer is its energy, without the pick's.
fn assemble(work: &mut Work, rest: &RestPart, p: Picked, settings: Settings) -> f64
    ensures value { result ≡ energy_of p.n.count settings rest.now (staged_shape p.n.count work.old) }
    ensures work_after { system_at p.n.count work.new ≡ picked_system p.n.count settings rest.now (staged_shape p.n.count work.old) p.pick }
    ensures after_vectors_kept { after_vectors work.new ≡ after_vectors work.old }
{
    let bendtwist = Vec3 {
        x: settings.stiff_bendtwist0,
        y: settings.stiff_bendtwist1,
        z: settings.stiff_bendtwist2,
    };
    let energy = hair_system::wdwddw_hair_system(
        work,
        p.n,
        rest.first_chunk::<{ areas::VECTOR_PART }>().unwrap(),
        rest.last_chunk::<{ areas::VECTOR_PART }>().unwrap(),
        settings.stiff_length,
        bendtwist,
    );
    add_picked(work, p);
    energy
}

// A step of any kind begins; the answer is its energy.
pub(crate) fn begin<K: Kind>(
    kind: K,
    work: &mut Work,
    rest: &RestPart,
    drape: &DrapePart,
    pins: &PinPart,
    p: Picked,
    settings: Settings,
) -> Result<f64, Refusal>
    ensures number { told result ≡ first (begin_rows p.n.count (begun_with (K.time kind) p.n.count settings rest.now p.pick (shape_by (K.time kind) p.n.count pins.now drape.now))) }
    ensures energy { IfOk result (λ e. e ≡ (begun_with (K.time kind) p.n.count settings rest.now p.pick (shape_by (K.time kind) p.n.count pins.now drape.now)).energy) }
    ensures system { OnOk result (system_at p.n.count work.new ≡ (begun_with (K.time kind) p.n.count settings rest.now p.pick (shape_by (K.time kind) p.n.count pins.now drape.now)).system) }
    ensures shape { staged_shape p.n.count work.new ≡ shape_by (K.time kind) p.n.count pins.now drape.now }
{
    kind.stage(work, drape, pins, p.n);
    if !staged_edges_fit(work, p.n) {
        return Err(Refusal::Edge);
    }
    let energy = assemble(work, rest, p, settings);
    kind.add_inertia(work, p.n);
    if !system::is_finite(energy, work, p.n) {
        return Err(Refusal::System);
    }
    Ok(energy)
}
