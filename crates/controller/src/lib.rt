// A controller of routes over any book: it grants requests, and follows each booking by its token until it ends.
#![tactic(auto)]

pub mod controller;
pub mod events;
pub mod timings;
pub mod tokens;

pub use controller::Controller;
pub use events::{Change, Event};
pub use timings::Timing;
pub use tokens::{Held, Hold, Kind, Passage, Token, UnderWay};
