// What a line calls for.

// The numbers of a call stand in the order in which its line has them, as in the definition of the grammar, so names would
// say no more. This crate rests on no other, so it has no request of the search's.
// A request has an origin, a destination and a slot; a confirmation, a withdrawal and an arrival have a booking number.
#[derive(Clone, Copy, PartialEq, Debug)]
pub enum LineCall {
    Request(u16, u16, u16),
    Confirm(u16),
    Withdraw(u16),
    Arrive(u16),
    List,
}
