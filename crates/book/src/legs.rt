// A leg, and the sizes of the plan that a book shows.

// A carrier enters the segment at the slot `entry`.
#[derive(Clone, Copy, PartialEq, Eq, Debug)]
pub struct Leg {
    pub segment: u16,
    pub entry: u16,
}

#[derive(Clone, Copy, PartialEq, Eq, Debug)]
pub struct Sizes {
    pub horizon: u16,
    pub junctions: u16,
    pub segments: u16,
}
