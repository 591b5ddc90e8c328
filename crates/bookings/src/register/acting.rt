// Acts on the booking with a number.
ghost use Rattle.bookings.specs.Registers.{Acted};

use super::Register;
use crate::states::{Act, Next};
use crate::transitions::next_state;
use search::Route;

impl Register {
    // Does the act with the first booking that has the number, and answers its route. Where that does not stand in the
    // state that the act needs, or there is none, the answer is none and nothing changes.
    pub fn act(&mut self, number: u16, act: Act) -> Option<Route>
        ensures { Acted self.old act number result self.new }
    {
        let place = self.place(number)?;
        let booking = self.bookings[place];
        match next_state(booking.state, act)? {
            Next::To(state) => self.bookings[place].state = state,
            Next::Withdrawn => {
                self.bookings.remove(place);
                self.withdrawn += 1;
            }
            Next::Arrived => {
                self.bookings.remove(place);
                self.arrived += 1;
            }
        }
        Some(booking.route)
    }
}
