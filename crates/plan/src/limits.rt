// The named limits of plans, books and bookings. specs/Limits.antt has the same numbers for contracts.

pub const MOST_JUNCTIONS: u16 = 64;

pub const MOST_SEGMENTS: u16 = 128;

pub const MOST_CLOSURES: u16 = 16;

pub const MOST_SLOTS: u16 = 512;

pub const MOST_CLASS: u8 = 15;

pub const MOST_TRAVEL: u64 = 64;

pub const MOST_COUNT: u64 = 255;

pub const MOST_LEGS: u16 = 1024;

pub const MOST_BOOKINGS: usize = 64;

pub const MOST_NUMBERS: u16 = 65535;
