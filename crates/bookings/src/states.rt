// The states of a booking, and what can be done with one that stands.
use search::Route;

// Held or under way, and for each whether its token is out or parked.
#[derive(Clone, Copy, PartialEq, Eq, Debug)]
pub enum State {
    Held,
    HeldParked,
    UnderWay,
    UnderWayParked,
}

// What is done with a booking by its number.
#[derive(Clone, Copy, PartialEq, Eq, Debug)]
pub enum Act {
    Confirm,
    Withdraw,
    Arrive,
    ParkHold,
    ParkPassage,
    TakeUpHold,
    TakeUpPassage,
}

// What becomes of a booking by an act: it comes to a state, or it ends.
#[derive(Clone, Copy, PartialEq, Eq, Debug)]
pub enum Next {
    To(State),
    Withdrawn,
    Arrived,
}

// What stands before the first leg of a route says nothing, so that equal bookings may differ there: no equality is derived.
#[derive(Clone, Copy)]
pub struct Booking {
    pub number: u16,
    pub state: State,
    pub route: Route,
}

// How many bookings have been granted, and what became of them.
#[derive(Clone, Copy, PartialEq, Eq, Debug)]
pub struct Tally {
    pub granted: u16,
    pub standing: u16,
    pub withdrawn: u16,
    pub arrived: u16,
}
