// The tokens of the bookings. What `drop` asks for is told of no token that a call hands out, so that no program that
// lets one go is proved.
ghost use Rattle.std.specs.Prelude.{◌≡◌, true};

use std::marker::PhantomData;

pub mod kinds;

pub use kinds::{Held, Kind, UnderWay};

// What its holder has of a booking. `spent` is there for `drop` to ask for: that form is fixed, and a program that lets a
// token go is to fail in the proof. Without a `drop` the compiler would refuse it before.
pub struct Token<K> {
    pub(crate) number: u16,
    pub(crate) spent: bool,
    pub(crate) kind: PhantomData<K>,
}

// The token of a booking that is held.
pub type Hold = Token<Held>;

// The token of a booking that is under way.
pub type Passage = Token<UnderWay>;

impl<K> Drop for Token<K> {
    fn drop(self)
        requires { self.spent ≡ true }
    {
        let Token {
            number: _,
            spent: _,
            kind: _,
        } = self;
    }
}

impl<K> Token<K> {
    pub(crate) fn new(number: u16) -> Token<K>
        ensures { result.number ≡ number }
    {
        Token {
            number,
            spent: false,
            kind: PhantomData,
        }
    }

    // The number of its booking.
    pub fn number(&self) -> u16
        ensures { result ≡ self.now.number }
    {
        self.number
    }

    pub(crate) fn spend(mut self) -> u16
        ensures { result ≡ self.number }
    {
        let number = self.number;
        self.spent = true;
        number
    }
}
