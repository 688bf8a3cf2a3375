// What every call on a seat is asked first: whether the areas that it is lent and the record are good,
// whether there is such a seat, and whether it is taken. `long` is whether the areas have their lengths, a
// bool, since each call is lent others. The record, it and the seat are three arguments: a struct of them would
// be made for one line of each call.
ghost use Rattle.std.specs.Prelude.{◌≡◌, [], ◌∷◌, ◌++◌, get_or, IfOk};
ghost use Rattle.bench.specs.Rows.{first};
ghost use Rattle.bench.specs.Refusals.{told};
ghost use Rattle.bench.specs.Requests.{vacant, taken};
ghost use Rattle.bench.specs.Calls.{seat_rows};

use crate::refusal::Refusal;
use crate::seats::Record;
use crate::{areas, given};
use matrix::vertices::Vertices;

// 1 or 2, in this order.
fn known(seats: &Record, long: bool, seat: usize) -> Result<(), Refusal>
    ensures { told result ≡ first (seat_rows long (seat ∷ []) seats.now) }
{
    if !long | !given::good_record(*seats) {
        return Err(Refusal::Lent);
    }
    if areas::SEATS <= seat {
        return Err(Refusal::Seat);
    }
    Ok(())
}

// 1, 2 or 3, of a call that wants an empty seat. Apart from `taken`, which tests the opposite and answers
// another type.
pub(crate) fn vacant(seats: &Record, long: bool, seat: usize) -> Result<(), Refusal>
    ensures { told result ≡ first (seat_rows long (seat ∷ []) seats.now ++ (vacant (get_or seats.now.counts seat 0) ∷ [])) }
{
    known(seats, long, seat)?;
    // Six counts are copied: `seats.counts[seat]` copies the whole record. So below.
    let counts = seats.counts;
    if counts[seat] != 0 {
        return Err(Refusal::Occupancy);
    }
    Ok(())
}

// 1, 2 or 3, of a call that wants a strand; else how many vertices that has.
pub(crate) fn taken(seats: &Record, long: bool, seat: usize) -> Result<Vertices, Refusal>
    ensures number { told result ≡ first (seat_rows long (seat ∷ []) seats.now ++ (taken (get_or seats.now.counts seat 0) ∷ [])) }
    ensures count { IfOk result (λ n. n.count ≡ get_or seats.now.counts seat 0) }
{
    known(seats, long, seat)?;
    let counts = seats.counts;
    Vertices::new(counts[seat]).ok_or(Refusal::Occupancy)
}
