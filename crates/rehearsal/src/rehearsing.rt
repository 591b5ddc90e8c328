// A list of calls on one controller.
ghost use Rattle.std.specs.Prelude.{◌≡◌, map, length, MatchResult};
ghost use Rattle.rehearsal.specs.Runs.{lent};
ghost use Rattle.rehearsal.specs.Rehearsed.{Rehearsed};

use crate::run::Run;
use book::Book;
use bookings::{Call, Exchange};
use controller::Controller;
use search::Label;
use std::alloc::Global;

// The controller after the calls, with every token parked, and what was asked and answered.
#[derive(Drop)]
pub struct Rehearsal<B> {
    pub controller: Controller<B>,
    pub history: Vec<Exchange>,
}

// Makes the calls one after the other, on a controller over the book, and goes on after refusals. The tokens are kept
// here: a call that takes a token is made only where that token is out, and at the end all are parked. A request is
// lent the first labels of the scratch, as many as the call says, or all where there are fewer. Where there is no
// memory, no call is made and the book comes back.
pub fn rehearse<B: Book>(
    heap: Global,
    book: B,
    calls: &[Call],
    scratch: &mut [Label],
) -> Result<Rehearsal<B>, B>
    ensures { MatchResult result (λ done. Rehearsed (B.Book.meaning book)
        (map (lent (length scratch.old)) calls.now)
        (B.Book.meaning done.controller.book) done.controller.register done.history.items)
        (λ back. back ≡ book) }
{
    let mut run = Run::start(heap, book, calls.len())?;
    run.play(calls, scratch);
    Ok(run.finish())
}
