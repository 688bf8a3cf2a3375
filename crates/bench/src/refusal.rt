// Why the bench declines a call.
ghost use Rattle.std.specs.Prelude.{◌≡◌};
ghost use Rattle.bench.specs.Refusals.{refusal_number, told};

// Each by document 01's number. What is tested first comes first.
#[derive(Clone, Copy, PartialEq, Eq)]
pub enum Refusal {
    // An area has another length, or the record is not good.
    Lent = 1,
    // There is no such seat.
    Seat = 2,
    // A load on a taken seat, or any other call on an empty one.
    Occupancy = 3,
    // The number of vertices, or a list that is not three numbers for each.
    Lists = 4,
    // A vertex, a component or a kind that there is not.
    Index = 5,
    // A number that is not finite, or below 0, or a time that is not above 0.
    Number = 6,
    // An edge without a length to work with.
    Edge = 7,
    // A system that is not finite.
    System = 8,
    // A solution that is not finite.
    Solution = 9,
    // An edge that turns back on itself.
    Turn = 10,
    // Something that would stand on the drape and is not finite.
    Drape = 11,
}

impl From<Refusal> for u8 {
    ghost from_gives = { λ refusal k. k ≡ refusal_number refusal };

    #[tactic(auto, unfolding(crate::specs::Refusals::refusal_number))]
    fn from(refusal: Refusal) -> u8 {
        refusal as u8
    }
}

// The number that an outcome tells, 0 where nothing is refused. No `From`: a Result is no type of this crate.
#[tactic(auto, unfolding(crate::specs::Refusals::told))]
pub fn told<T: Copy>(outcome: Result<T, Refusal>) -> u8
    ensures { result ≡ told outcome }
{
    match outcome {
        Ok(_) => 0,
        Err(refusal) => refusal.into(),
    }
}
