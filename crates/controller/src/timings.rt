// When a booking departs and arrives.
ghost use Rattle.std.specs.Prelude.{◌≡◌, Some};
ghost use Rattle.controller.specs.Events.{two_events};

use crate::events::{Change, Event};

// The entry of the first leg, the slot at which the last one ends, and how many legs there are. The arrival has room
// for every sum of an entry and travel slots.
#[derive(Clone, Copy, PartialEq, Eq, Debug)]
pub struct Timing {
    pub departure: u16,
    pub arrival: u32,
    pub legs: u16,
}

impl Timing {
    // The departure and the end of the booking with the number.
    pub(crate) fn events(&self, number: u16) -> [Event; 2]
        ensures { result ≡ two_events number (Some self.now) }
    {
        [
            Event {
                slot: self.departure as u32,
                change: Change::Departure,
                number,
            },
            Event {
                slot: self.arrival,
                change: Change::End,
                number,
            },
        ]
    }
}
