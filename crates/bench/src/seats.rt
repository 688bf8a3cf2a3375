// What the bench knows of its six seats beside the areas.
ghost use Rattle.std.specs.Prelude.{◌≡◌, ◌<◌, set};
ghost use Rattle.bench.specs.Areas.{seats};
ghost use Rattle.bench.specs.Strand.{new_record};

use crate::areas;

// A strand's settings, which travel together: the stiffness against stretch, the three against bend
// and twist, and the ratio below which a solve ends. Those of an empty seat are 0.
#[repr(C)]
#[derive(Clone, Copy, Default)]
pub struct Settings {
    pub stiff_length: f64,
    pub stiff_bendtwist0: f64,
    pub stiff_bendtwist1: f64,
    pub stiff_bendtwist2: f64,
    pub conv_ratio: f64,
}

// Of each seat the number of its strand's vertices, 0 where it is empty, and the settings. Two arrays, as
// document 01 has the record.
#[repr(C)]
#[derive(Clone, Copy)]
pub struct Record {
    pub counts: [usize; areas::SEATS],
    pub settings: [Settings; areas::SEATS],
}

// The record of a new bench: all zero.
impl Default for Record {
    ghost is_default = { λ s. s ≡ new_record };

    #[tactic(auto, unfolding(crate::specs::Strand::new_record))]
    fn default() -> Record {
        Record {
            counts: [0; areas::SEATS],
            settings: [Settings::default(); areas::SEATS],
        }
    }
}

// The record with n and the settings for the seat.
pub(crate) fn seated(record: Record, seat: usize, n: usize, settings: Settings) -> Record
    requires { seat < seats }
    ensures { result ≡ record { counts = set «record».counts seat n; settings = set «record».settings seat settings } }
{
    let mut after = record;
    after.counts[seat] = n;
    after.settings[seat] = settings;
    after
}
