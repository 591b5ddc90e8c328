// The events of a shift: departures and ends of bookings.
pub use queue_client::event::Change;
use queue_client::event::EventAt;

// The slot has room for every sum of an entry and travel slots.
pub type Event = EventAt<u32>;
