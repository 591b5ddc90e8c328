// The acts that take a token. A refused one changes nothing, and the token comes back: each call promises that by itself, so
// the clause stands at each.
ghost use Rattle.std.specs.Prelude.{◌≡◌, IfErr, MatchResult, OnErr};
ghost use Rattle.bookings.specs.declared.calls.Call.TheVariants as call;
ghost use Rattle.bookings.specs.declared.states.Act.TheVariants as act;
ghost use Rattle.controller.specs.Stepped.{Stepped};
ghost use Rattle.controller.specs.Told.{told};

use super::Controller;
use crate::tokens::{Hold, Kind, Passage, Token};
use book::Book;
use bookings::{Act, free_all};
use plan::Refusal;

impl<B: Book> Controller<B> {
    // A booking that is held comes under way.
    pub fn confirm(&mut self, hold: Hold) -> Result<Passage, (Refusal, Hold)>
        ensures step { Stepped B.Book.meaning self.old (call.Act act.Confirm hold.number) (told result) self.new }
        ensures refused { OnErr result (self.new ≡ self.old) }
        ensures token { MatchResult result (λ passage. passage.number ≡ hold.number) (λ back. back.1 ≡ hold) }
    {
        match self.register.act(hold.number, Act::Confirm) {
            Some(_) => Ok(Passage::new(hold.spend())),
            None => Err((Refusal::TokenNotStanding, hold)),
        }
    }

    // A booking that is held ends, and its legs are freed.
    pub fn withdraw(&mut self, hold: Hold) -> Result<(), (Refusal, Hold)>
        ensures step { Stepped B.Book.meaning self.old (call.Act act.Withdraw hold.number) (told result) self.new }
        ensures refused { OnErr result (self.new ≡ self.old) }
        ensures token { IfErr result (λ back. back.1 ≡ hold) }
    {
        self.end(hold)
    }

    // A booking that is under way ends, and its legs are freed.
    pub fn arrive(&mut self, passage: Passage) -> Result<(), (Refusal, Passage)>
        ensures step { Stepped B.Book.meaning self.old (call.Act act.Arrive passage.number) (told result) self.new }
        ensures refused { OnErr result (self.new ≡ self.old) }
        ensures token { IfErr result (λ back. back.1 ≡ passage) }
    {
        self.end(passage)
    }

    // The booking of the token ends, and its legs are freed.
    fn end<K: Kind>(&mut self, token: Token<K>) -> Result<(), (Refusal, Token<K>)>
        ensures step { Stepped B.Book.meaning self.old (call.Act K.END token.number) (told result) self.new }
        ensures refused { OnErr result (self.new ≡ self.old) }
        ensures token { IfErr result (λ back. back.1 ≡ token) }
    {
        match self.register.act(token.number, K::END) {
            Some(route) => {
                free_all(&mut self.book, route.legs());
                token.spend();
                Ok(())
            }
            None => Err((Refusal::TokenNotStanding, token)),
        }
    }

    // The token is left with the controller, until it is taken up by its number.
    pub fn park<K: Kind>(&mut self, token: Token<K>) -> Result<(), (Refusal, Token<K>)>
        ensures step { Stepped B.Book.meaning self.old (call.Act K.PARK token.number) (told result) self.new }
        ensures refused { OnErr result (self.new ≡ self.old) }
        ensures token { IfErr result (λ back. back.1 ≡ token) }
    {
        match self.register.act(token.number, K::PARK) {
            Some(_) => {
                token.spend();
                Ok(())
            }
            None => Err((Refusal::TokenNotStanding, token)),
        }
    }
}
