// A controller, and the tokens that its caller has.
ghost use Rattle.bookings.specs.Steps.{listed};
ghost use Rattle.histories.specs.Tokens.{Matched, Numbered, Numbered-prop};
ghost use Rattle.rehearsal.specs.TokenLists.{out};

use crate::tokens::take_token;
use book::Book;
use bookings::{Act, Answer, Call, Exchange};
use controller::{Controller, Hold, Passage};
use search::{Label, Request};
use std::alloc::Global;

// The tokens out are those of the bookings that the register lists. They stand in lists that have their room from the
// start, and not in maps by number, as no call allocates.
pub(crate) struct Caller<B> {
    controller: Controller<B>,
    holds: Vec<Hold>,
    passages: Vec<Passage>,
    ghost matched: { Matched (out holds.items) (out passages.items) (listed controller.register) },
    ghost numbered: { Numbered controller.register.last (listed controller.register) } by { Numbered-prop _ _ },
}

impl<B: Book> Caller<B> {
    ghost use Rattle.std.specs.Prelude.{◌≡◌, ◌≤◌, length, MatchResult, vec_len, vec_capacity};
    ghost use Rattle.bookings.specs.declared.calls.Call.TheVariants as call;
    ghost use Rattle.bookings.specs.Registers.{Begins};
    ghost use Rattle.histories.specs.Parked.{AllParked};
    ghost use Rattle.rehearsal.specs.Callers.{Grown, HasRoom, MadeBy, NoneOut};
    ghost use Rattle.rehearsal.specs.Runs.{lent};

    // All the memory that it needs is taken here: it has room for so many tokens of each kind. Where there is no memory,
    // the book comes back.
    pub(crate) fn new(heap: Global, book: B, most: usize) -> Result<Caller<B>, B>
        ensures { MatchResult result
            (λ c. (c.controller.book ≡ book) × Begins c.controller.register × NoneOut most c)
            (λ back. back ≡ book) }
    {
        let controller = Controller::new(heap, book)?;
        // The book goes back, and a list of tokens is let go by `destroy_empty` alone, so `?` does not serve for the lists.
        let Ok(holds) = Vec::with_capacity(heap, most) else {
            return Err(controller.into_book());
        };
        let Ok(passages) = Vec::with_capacity(heap, most) else {
            holds.destroy_empty();
            return Err(controller.into_book());
        };
        Ok(Caller {
            controller,
            holds,
            passages,
        })
    }

    // The book, where no token is out.
    pub(crate) fn into_book(self) -> B
        requires holds { vec_len self.holds ≡ 0 }
        requires passages { vec_len self.passages ≡ 0 }
        ensures { result ≡ self.controller.book }
    {
        let Caller {
            controller,
            holds,
            passages,
        } = self;
        holds.destroy_empty();
        passages.destroy_empty();
        controller.into_book()
    }

    // Makes one call. A request is lent the first labels of the scratch, as many as the call says, or all where there are
    // fewer.
    pub(crate) fn make(&mut self, call: Call, scratch: &mut [Label]) -> Exchange
        requires { HasRoom self.old }
        ensures made { MadeBy B.Book.meaning self.old result.call result.answer self.new }
        ensures grown { Grown self.old self.new }
        ensures call { result.call ≡ lent (length scratch.old) call }
        ensures scratch { length scratch.new ≡ length scratch.old }
    {
        match call {
            Call::Ask(request, labels) => {
                let room = labels.min(scratch.len());
                Exchange {
                    call: Call::Ask(request, room),
                    answer: self.ask(request, &mut scratch[..room]),
                }
            }
            Call::Act(act, number) => Exchange {
                call,
                answer: self.act(act, number),
            },
        }
    }

    // After a grant the controller is asked for the route.
    fn ask(&mut self, request: Request, scratch: &mut [Label]) -> Answer
        requires { HasRoom self.old }
        ensures made { MadeBy B.Book.meaning self.old (call.Ask request (length scratch.old)) result self.new }
        ensures grown { Grown self.old self.new }
    {
        match self.controller.request(request, scratch) {
            Ok(hold) => {
                let number = hold.number();
                self.holds.push_reserved(hold);
                let route = self.controller.route(number).unwrap();
                Answer::Granted(number, route)
            }
            Err(refusal) => Answer::Refused(refusal),
        }
    }

    // An act that takes a token is made where that token is out. It is then not refused, as the token's booking stands.
    fn act(&mut self, act: Act, number: u16) -> Answer
        requires { HasRoom self.old }
        ensures made { MadeBy B.Book.meaning self.old (call.Act act number) result self.new }
        ensures grown { Grown self.old self.new }
    {
        // The act comes as data. A helper that takes the controller's call as a closure would need clauses on each of its
        // calls, longer than the arms that it would save.
        match act {
            Act::Confirm => match take_token(&mut self.holds, number) {
                Some(hold) => {
                    let passage = self.controller.confirm(hold).unwrap();
                    self.passages.push_reserved(passage);
                    Answer::Done
                }
                None => Answer::NoToken,
            },
            Act::Withdraw => match take_token(&mut self.holds, number) {
                Some(hold) => {
                    self.controller.withdraw(hold).unwrap();
                    Answer::Done
                }
                None => Answer::NoToken,
            },
            Act::Arrive => match take_token(&mut self.passages, number) {
                Some(passage) => {
                    self.controller.arrive(passage).unwrap();
                    Answer::Done
                }
                None => Answer::NoToken,
            },
            Act::ParkHold => match take_token(&mut self.holds, number) {
                Some(hold) => {
                    self.controller.park(hold).unwrap();
                    Answer::Done
                }
                None => Answer::NoToken,
            },
            Act::ParkPassage => match take_token(&mut self.passages, number) {
                Some(passage) => {
                    self.controller.park(passage).unwrap();
                    Answer::Done
                }
                None => Answer::NoToken,
            },
            Act::TakeUpHold => match self.controller.take_up(number) {
                Ok(hold) => {
                    self.holds.push_reserved(hold);
                    Answer::Done
                }
                Err(refusal) => Answer::Refused(refusal),
            },
            Act::TakeUpPassage => match self.controller.take_up(number) {
                Ok(passage) => {
                    self.passages.push_reserved(passage);
                    Answer::Done
                }
                Err(refusal) => Answer::Refused(refusal),
            },
        }
    }

    // The controller, once all tokens are parked. No park is refused, so that no token is lost.
    pub(crate) fn park_all(self) -> Controller<B>
        ensures { AllParked
            (B.Book.meaning self.controller.book) self.controller.register
            (B.Book.meaning result.book) result.register }
    {
        let Caller {
            mut controller,
            mut holds,
            mut passages,
        } = self;
        // A function for the loop of either kind would need a contract over the tokens of both, longer than the loop.
        while let Some(hold) = holds.pop() {
            controller.park(hold).unwrap();
        }
        while let Some(passage) = passages.pop() {
            controller.park(passage).unwrap();
        }
        holds.destroy_empty();
        passages.destroy_empty();
        controller
    }
}
