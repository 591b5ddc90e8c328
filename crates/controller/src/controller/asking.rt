// What a controller tells. No question changes it.
ghost use Rattle.std.specs.Prelude.{◌≡◌, ◌+◌};
ghost use Rattle.std.specs.List.{slice_get};
ghost use Rattle.std.specs.Option.{option_map};
ghost use Rattle.bookings.specs.Owed.{legs_by_number};
ghost use Rattle.bookings.specs.Registers.{first_with, tally_of};
ghost use Rattle.bookings.specs.Steps.{listed};
ghost use Rattle.controller.specs.Timings.{timing_of};

use super::Controller;
use crate::timings::Timing;
use book::{Book, Leg};
use bookings::{State, Tally};
use search::Route;

impl<B: Book> Controller<B> {
    // The route of the first booking with the number.
    pub fn route(&self, number: u16) -> Option<Route>
        ensures { result ≡ option_map (λ b. b.route) (first_with number (listed self.now.register)) }
    {
        let booking = self.register.find(number)?;
        Some(booking.route)
    }

    // And its state.
    pub fn state(&self, number: u16) -> Option<State>
        ensures { result ≡ option_map (λ b. b.state) (first_with number (listed self.now.register)) }
    {
        let booking = self.register.find(number)?;
        Some(booking.state)
    }

    // A leg of the booking with the number, by its place in the route, from 0.
    pub fn leg(&self, number: u16, place: u16) -> Option<Leg>
        ensures { result ≡ slice_get (legs_by_number number (listed self.now.register)) place }
    {
        let route = self.route(number)?;
        route.legs().get(place as usize).copied()
    }

    // When the booking with the number departs and arrives, and how many legs it has.
    pub fn booking(&self, number: u16) -> Option<Timing>
        ensures { result ≡ timing_of (B.Book.meaning self.now.book)
            (legs_by_number number (listed self.now.register)) }
    {
        let route = self.route(number)?;
        self.timing(route)
    }

    // How many bookings have been granted, and what became of them.
    pub fn tally(&self) -> Tally
        ensures value { result ≡ tally_of self.now.register }
        ensures sum { result.granted ≡ result.standing + result.withdrawn + result.arrived }
    {
        self.register.tally()
    }

    pub fn book(&self) -> &B
        ensures { result.now ≡ self.now.book }
    {
        &self.book
    }

    // The book, with the legs of the bookings that still stand.
    pub fn into_book(self) -> B
        ensures { result ≡ self.book }
    {
        let Controller { book, register: _ } = self;
        book
    }
}
