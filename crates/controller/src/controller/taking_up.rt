// The act that takes a parked token up again.
ghost use Rattle.std.specs.Prelude.{◌≡◌, IfOk, OnErr};
ghost use Rattle.bookings.specs.declared.calls.Call.TheVariants as call;
ghost use Rattle.controller.specs.Stepped.{Stepped};
ghost use Rattle.controller.specs.Told.{taken};

use super::Controller;
use crate::tokens::{Kind, Token};
use book::Book;
use plan::Refusal;

impl<B: Book> Controller<B> {
    // The token of a booking whose token of the kind is parked.
    pub fn take_up<K: Kind>(&mut self, number: u16) -> Result<Token<K>, Refusal>
        ensures step { Stepped B.Book.meaning self.old (call.Act K.TAKE_UP number) (taken result) self.new }
        ensures refused { OnErr result (self.new ≡ self.old) }
        ensures token { IfOk result (λ token. token.number ≡ number) }
    {
        match self.register.act(number, K::TAKE_UP) {
            Some(_) => Ok(Token::new(number)),
            None => Err(Refusal::NumberNotParked),
        }
    }
}
