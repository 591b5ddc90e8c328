// Lists of calls on two controllers side by side, over books of any two types.
ghost use Rattle.std.specs.Prelude.{◌≡◌, [], ◌∷◌, ◌++◌, map, length, MatchResult};
ghost use Rattle.bookings.specs.declared.calls.Call.TheVariants as call;
ghost use Rattle.rehearsal.specs.Runs.{lent};
ghost use Rattle.rehearsal.specs.Rehearsed.{BothRehearsed};

use crate::rehearsing::Rehearsal;
use crate::run::Run;
use book::Book;
use bookings::Call;
use search::{Label, Request};
use std::alloc::Global;

#[derive(Drop)]
pub struct Both<A, B> {
    pub first: Rehearsal<A>,
    pub second: Rehearsal<B>,
}

// Makes a list of calls on each of two controllers, and then puts one request to both, with all labels of the scratch.
// Where there is no memory, no call is made and both books come back.
pub fn rehearse_both<A: Book, B: Book>(
    heap: Global,
    first: A,
    second: B,
    calls: &[Call],
    others: &[Call],
    request: Request,
    scratch: &mut [Label],
) -> Result<Both<A, B>, (A, B)>
    ensures { MatchResult result (λ both. BothRehearsed (A.Book.meaning first) (B.Book.meaning second)
        (map (lent (length scratch.old))
        (calls.now ++ call.Ask request (length scratch.old) ∷ []))
        (map (lent (length scratch.old))
        (others.now ++ call.Ask request (length scratch.old) ∷ []))
        (A.Book.meaning both.first.controller.book) both.first.controller.register
        both.first.history.items
        (B.Book.meaning both.second.controller.book) both.second.controller.register
        both.second.history.items)
        (λ back. (back.0 ≡ first) × (back.1 ≡ second)) }
{
    let mut one = match Run::start(heap, first, calls.len() + 1) {
        Ok(run) => run,
        // A closure for `map_err` would take the second book with it.
        Err(back) => return Err((back, second)),
    };
    let mut two = match Run::start(heap, second, others.len() + 1) {
        Ok(run) => run,
        Err(back) => return Err((one.into_book(), back)),
    };
    let last = [Call::Ask(request, scratch.len())];
    one.play(calls, scratch);
    one.play(&last, scratch);
    two.play(others, scratch);
    two.play(&last, scratch);
    Ok(Both {
        first: one.finish(),
        second: two.finish(),
    })
}
