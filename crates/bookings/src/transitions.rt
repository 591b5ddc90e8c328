// The one table of what becomes of a booking.
ghost use Rattle.bookings.specs.Registers.{Follows};

use crate::states::{Act, Next, State};

// What becomes of a booking in the state by the act, or none where it is in another state than the act needs.
pub(crate) fn next_state(state: State, act: Act) -> Option<Next>
    ensures { Follows state act result }
{
    match (state, act) {
        (State::Held, Act::Confirm) => Some(Next::To(State::UnderWay)),
        (State::Held, Act::Withdraw) => Some(Next::Withdrawn),
        (State::UnderWay, Act::Arrive) => Some(Next::Arrived),
        (State::Held, Act::ParkHold) => Some(Next::To(State::HeldParked)),
        (State::UnderWay, Act::ParkPassage) => Some(Next::To(State::UnderWayParked)),
        (State::HeldParked, Act::TakeUpHold) => Some(Next::To(State::Held)),
        (State::UnderWayParked, Act::TakeUpPassage) => Some(Next::To(State::UnderWay)),
        _ => None,
    }
}
