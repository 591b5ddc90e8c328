// A new register, and new bookings in it.
ghost use Rattle.std.specs.Prelude.{◌≡◌, length, IfOk};
ghost use Rattle.bookings.specs.Answers.{vacancy};
ghost use Rattle.bookings.specs.Registers.{Begins, Entered};
ghost use Rattle.bookings.specs.Steps.{listed};

use super::Register;
use crate::states::{Booking, State};
use plan::Refusal;
use plan::limits::{MOST_BOOKINGS, MOST_NUMBERS};
use search::Route;
use std::alloc::{AllocError, Global};

impl Register {
    pub fn new(heap: Global) -> Result<Register, AllocError>
        ensures { IfOk result (λ g. Begins g) }
    {
        let bookings = Vec::with_capacity(heap, MOST_BOOKINGS)?;
        Ok(Register {
            bookings,
            last: 0,
            withdrawn: 0,
            arrived: 0,
        })
    }

    // Whether there is a number and a place for one booking more: 15 or 16 where there is not.
    pub fn check_vacancy(&self) -> Result<(), Refusal>
        ensures { result ≡ vacancy (length (listed self.now)) self.now.last }
    {
        if self.last >= MOST_NUMBERS {
            return Err(Refusal::NumbersUsedUp);
        }
        if self.bookings.len() >= MOST_BOOKINGS {
            return Err(Refusal::BookingsFull);
        }
        Ok(())
    }

    // Lists a hold with the route under the next number, which it answers.
    pub fn enter(&mut self, route: Route) -> Result<u16, Refusal>
        ensures { Entered self.old route result self.new }
    {
        self.check_vacancy()?;
        let number = self.last + 1;
        self.bookings.push_reserved(Booking {
            number,
            state: State::Held,
            route,
        });
        self.last = number;
        Ok(number)
    }
}
