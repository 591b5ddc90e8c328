// The calls of a list, one after the other, with what was asked and answered so far.
ghost use Rattle.std.specs.Prelude.{◌≤◌, vec_len, vec_capacity};
ghost use Rattle.histories.specs.Courses.{Recorded};

use crate::caller::Caller;
use crate::rehearsing::Rehearsal;
use book::Book;
use bookings::{Call, Exchange};
use search::Label;
use std::alloc::Global;

// A call puts at most one token out, so no more are out than calls were made, and there is room for a token of each kind
// where there is room for an exchange.
pub(crate) struct Run<B> {
    caller: Caller<B>,
    history: Vec<Exchange>,
    ghost recorded: { Recorded caller.controller.register history.items },
    ghost few_holds: { vec_len caller.holds ≤ vec_len history },
    ghost few_passages: { vec_len caller.passages ≤ vec_len history },
    ghost hold_room: { vec_capacity history ≤ vec_capacity caller.holds },
    ghost passage_room: { vec_capacity history ≤ vec_capacity caller.passages },
}

impl<B: Book> Run<B> {
    ghost use Rattle.std.specs.Prelude.{◌≡◌, ◌+◌, ◌++◌, [], map, length, MatchResult};
    ghost use Rattle.book.specs.Meaning.{Meaning};
    ghost use Rattle.histories.specs.Courses.{Going};
    ghost use Rattle.histories.specs.Parked.{AllParked};
    ghost use Rattle.rehearsal.specs.Runs.{lent};

    // No call is made yet, and there is room for so many. Where there is no memory, the book comes back.
    pub(crate) fn start(heap: Global, book: B, calls: usize) -> Result<Run<B>, B>
        ensures { MatchResult result
            (λ run. (run.caller.controller.book ≡ book) × (run.history.items ≡ []) × (vec_capacity run.history ≡ calls))
            (λ back. back ≡ book) }
    {
        let caller = Caller::new(heap, book, calls)?;
        match Vec::with_capacity(heap, calls) {
            Ok(history) => Ok(Run { caller, history }),
            Err(_) => Err(caller.into_book()),
        }
    }

    // Goes on after a refusal with the next call.
    pub(crate) fn play(&mut self, calls: &[Call], scratch: &mut [Label])
        requires { vec_len self.old.history + length calls.now ≤ vec_capacity self.old.history }
        ensures going { (w : Meaning)
            → Going w (B.Book.meaning self.old.caller.controller.book) self.old.history.items
            → Going w (B.Book.meaning self.new.caller.controller.book) self.new.history.items }
        ensures made { map (λ x. x.call) self.new.history.items
            ≡ map (λ x. x.call) self.old.history.items ++ map (lent (length scratch.old)) calls.now }
        ensures len { vec_len self.new.history ≡ vec_len self.old.history + length calls.now }
        ensures room { vec_capacity self.new.history ≡ vec_capacity self.old.history }
        ensures scratch { length scratch.new ≡ length scratch.old }
    {
        for call in calls {
            let exchange = self.caller.make(*call, scratch);
            self.history.push_reserved(exchange);
        }
    }

    // Parks the tokens.
    pub(crate) fn finish(self) -> Rehearsal<B>
        ensures parked { AllParked
            (B.Book.meaning self.caller.controller.book) self.caller.controller.register
            (B.Book.meaning result.controller.book) result.controller.register }
        ensures history { result.history ≡ self.history }
    {
        let Run { caller, history } = self;
        Rehearsal {
            controller: caller.park_all(),
            history,
        }
    }

    // The book, where no call was made.
    pub(crate) fn into_book(self) -> B
        requires { vec_len self.history ≡ 0 }
        ensures { result ≡ self.caller.controller.book }
    {
        let Run { caller, history: _ } = self;
        caller.into_book()
    }
}
