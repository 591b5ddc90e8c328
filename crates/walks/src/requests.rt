// What a carrier asks for.

// A route from `origin` to `destination`. `slot` is the earliest slot at which the carrier may leave.
#[derive(Clone, Copy, PartialEq, Eq, Debug)]
pub struct Request {
    pub origin: u16,
    pub destination: u16,
    pub slot: u16,
}
