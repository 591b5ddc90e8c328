// Whether a request can be searched for at all.
ghost use Rattle.std.specs.Prelude.{length};
ghost use Rattle.search.specs.Requests.{Checked};

use book::Book;
use plan::Refusal;
use walks::{Label, Request};

// 11 to 14, in this order: a junction is unknown, origin and destination are equal, the slot is not below the horizon, or
// the scratch has fewer labels than segments + 1.
pub fn check_request<B: Book>(book: &B, request: Request, scratch: &[Label]) -> Result<(), Refusal>
    ensures { Checked (B.Book.meaning book.now) request (length scratch.now) result }
{
    let sizes = book.sizes();
    if request.origin >= sizes.junctions || request.destination >= sizes.junctions {
        return Err(Refusal::JunctionUnknown);
    }
    if request.origin == request.destination {
        return Err(Refusal::OriginIsDestination);
    }
    if request.slot >= sizes.horizon {
        return Err(Refusal::SlotPastHorizon);
    }
    if scratch.len() <= sizes.segments as usize {
        return Err(Refusal::ScratchTooSmall);
    }
    Ok(())
}
