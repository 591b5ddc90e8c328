// The register of the bookings that stand.
ghost use Rattle.std.specs.Prelude.{◌≡◌, ◌+◌, ◌≤◌, vec_len, vec_capacity};
ghost use Rattle.plan.specs.Limits.{most_bookings};

use crate::states::Booking;

pub mod acting;
pub mod entering;
pub mod finding;
pub mod tallying;

// Room for all bookings is reserved when a register is made, so that no call allocates: hence a list that is searched,
// and no map. `last` is the last number given, 0 at first; it counts the bookings granted.
#[derive(Drop)]
pub struct Register {
    bookings: Vec<Booking>,
    last: u16,
    withdrawn: u16,
    arrived: u16,
    ghost room: { most_bookings ≤ vec_capacity bookings },
    ghost few: { vec_len bookings ≤ most_bookings },
    ghost tallied: { last ≡ vec_len bookings + withdrawn + arrived },
}
