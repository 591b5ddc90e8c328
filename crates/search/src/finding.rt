// The route that a request is granted.
ghost use Rattle.std.specs.Prelude.{length, Err};
ghost use Rattle.search.specs.Finds.{Finds, Untouched};

use crate::earliest::Search;
use crate::requests::check_request;
use crate::route::Route;
use book::Book;
use plan::Refusal;
use walks::{Label, Request};

// The chosen route, or why there is none: 11 to 14 as `check_request` has them, and then the scratch is as it was; or 17,
// exactly when no admissible timed walk exists. The search is free to leave anything in the scratch.
pub fn find_route<B: Book>(
    book: &B,
    request: Request,
    scratch: &mut [Label],
) -> Result<Route, Refusal>
    ensures finds { Finds (B.Book.meaning book.now) request (length scratch.old) result }
    ensures untouched { Untouched (B.Book.meaning book.now) request
        scratch.old scratch.new }
{
    check_request(book, request, scratch)?;
    let search = Search::run(book, request, scratch);
    search
        .arrivals
        .at(request.destination)
        .ok_or(Refusal::NoWalk)?;
    Ok(search.trace_back(request))
}
