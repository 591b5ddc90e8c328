// When a route departs and arrives in the controller's book.
ghost use Rattle.std.specs.Prelude.{◌≡◌};
ghost use Rattle.search.specs.Routes.{legs_of};
ghost use Rattle.walks.specs.Walks.{end_of};
ghost use Rattle.controller.specs.Timings.{timing_of};

use super::Controller;
use crate::timings::Timing;
use book::{Book, Leg};
use search::Route;

impl<B: Book> Controller<B> {
    pub(crate) fn timing(&self, route: Route) -> Option<Timing>
        ensures { result ≡ timing_of (B.Book.meaning self.now.book) (legs_of route) }
    {
        let legs = route.legs();
        let first = legs.first()?;
        let last = legs.last()?;
        Some(Timing {
            departure: first.entry,
            arrival: self.end_of(*last),
            legs: legs.len() as u16,
        })
    }

    // The slot at which the leg ends.
    fn end_of(&self, leg: Leg) -> u32
        ensures { result ≡ end_of (B.Book.meaning self.now.book) leg }
    {
        match self.book.segment(leg.segment) {
            Some((_, _, slots, _)) => leg.entry as u32 + slots as u32,
            None => leg.entry as u32,
        }
    }
}
