// Bookings: their states, what is asked of a controller and what it answers, and the register that keeps them.
#![tactic(auto)]

pub mod calls;
pub mod legs;
pub mod register;
pub mod states;
mod transitions;

pub use calls::{Answer, Call, Exchange};
pub use legs::{free_all, reserve_all};
pub use register::Register;
pub use states::{Act, Booking, State, Tally};
