// Finding a booking by its number.
ghost use Rattle.std.specs.Prelude.{◌≡◌, ◌==◌, position};
ghost use Rattle.bookings.specs.Registers.{first_with};
ghost use Rattle.bookings.specs.Steps.{listed};

use super::Register;
use crate::states::Booking;

impl Register {
    // The bookings, in the order in which they were granted.
    pub fn bookings(&self) -> &[Booking]
        ensures { result.now ≡ listed self.now }
    {
        self.bookings.as_slice()
    }

    // The place of the first booking with the number.
    pub(crate) fn place(&self, number: u16) -> Option<usize>
        ensures { result ≡ position (λ b. b.number == number) (listed self.now) }
    {
        self.bookings
            .iter()
            .position(|booking| booking.number == number)
    }

    // The first booking with the number.
    pub fn find(&self, number: u16) -> Option<Booking>
        ensures { result ≡ first_with number (listed self.now) }
    {
        self.bookings
            .iter()
            .find(|booking| booking.number == number)
            .copied()
    }
}
