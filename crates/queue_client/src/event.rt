// The events of a shift: departures and ends of bookings.
ghost use Rattle.queue_client.specs.Kinds.{event_before};
ghost use Rattle.queue.proofs.Orders.{numbers, pairs, by_key};
ghost use Rattle.queue_client.specs.EventOrder.{key, event_from_key};

use queue::order::Ordered;

// In the derived order an end comes before a departure.
#[derive(Clone, Copy, PartialEq, PartialOrd, Debug)]
pub enum Change {
    End,
    Departure,
}

// What happens at a slot to the booking with a number. The derived order goes by the fields, as they stand.
#[derive(Clone, Copy, PartialEq, PartialOrd, Debug)]
pub struct EventAt<S> {
    pub slot: S,
    pub change: Change,
    pub number: u16,
}

// An event at a slot of a plan. That of a controller has a wider slot, as it has room for every sum of an entry and travel slots.
pub type Event = EventAt<u16>;

impl Ordered for EventAt<u16> {
    ghost before = { event_before };

    ghost total = { unfold key in by_key key event_from_key (pairs _ _ numbers (pairs _ _ numbers numbers)) };

    fn is_before(&self, other: &EventAt<u16>) -> bool {
        *self < *other
    }
}

impl Ordered for EventAt<u32> {
    ghost before = { event_before };

    ghost total = { unfold key in by_key key event_from_key (pairs _ _ numbers (pairs _ _ numbers numbers)) };

    fn is_before(&self, later: &EventAt<u32>) -> bool {
        *self < *later
    }
}
