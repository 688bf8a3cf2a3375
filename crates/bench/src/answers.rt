// What a step is asked and what it answers.
ghost use Rattle.std.specs.Prelude.{◌≡◌};
ghost use Rattle.bench.specs.Refusals.{answered};

use crate::refusal::Refusal;
use vectors::vec3::Vec3;

// A vertex that is pulled to a goal, or none. No Option: document 01 has the pick as an enum of its own.
#[derive(Clone, Copy)]
pub enum Pick {
    Nothing,
    At(usize, Vec3),
}

// A step's answer: accepted with its numbers, or why it is refused. No Result: it is a shape of document 01.
#[derive(Clone, Copy)]
pub enum StepAnswer {
    Accepted {
        energy: f64,
        ratio: f64,
        count: usize,
    },
    Refused(Refusal),
}

// The numbers of an accepted step.
#[derive(Clone, Copy)]
pub(crate) struct Numbers {
    pub(crate) energy: f64,
    pub(crate) ratio: f64,
    pub(crate) count: usize,
}

impl From<Result<Numbers, Refusal>> for StepAnswer {
    ghost from_gives = { λ outcome a. a ≡ answered outcome };

    #[tactic(auto, unfolding(crate::specs::Refusals::answered))]
    fn from(outcome: Result<Numbers, Refusal>) -> StepAnswer {
        match outcome {
            Ok(n) => StepAnswer::Accepted {
                energy: n.energy,
                ratio: n.ratio,
                count: n.count,
            },
            Err(refusal) => StepAnswer::Refused(refusal),
        }
    }
}
