// The parts that a plan is made of, as they are handed in and told.

// `slot_length` is in milliseconds, `density` is the critical one in carriers per kilometre and lane, `horizon` the
// number of slots.
#[derive(Clone, Copy, PartialEq, Eq, Debug)]
pub struct Settings {
    pub slot_length: u16,
    pub density: u16,
    pub horizon: u16,
    pub junctions: u16,
}

// A one-way road from the junction `start` to the junction `end`; `length` is in metres.
#[derive(Clone, Copy, PartialEq, Eq, Debug)]
pub struct Segment {
    pub start: u16,
    pub end: u16,
    pub length: u16,
    pub lanes: u8,
    pub class: u8,
}

// The segment is closed in the slots from `first` to the one before `end`.
#[derive(Clone, Copy, PartialEq, Eq, Debug, Default)]
pub struct Closure {
    pub segment: u16,
    pub first: u16,
    pub end: u16,
}

// The settings by name.
#[derive(Clone, Copy, PartialEq, Eq, Debug)]
pub enum Setting {
    SlotLength,
    Density,
    Horizon,
    Junctions,
}
