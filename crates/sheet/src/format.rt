// The numbers of the sheet's format.

pub const FORMAT: u8 = 1;

pub const SECTIONS: u8 = 3;

// How many bytes the head, the settings, and each record of a segment and of a closure have.
pub const HEAD_SIZE: u32 = 26;

pub const SETTINGS_SIZE: u32 = 7;

pub const SEGMENT_SIZE: u32 = 6;

pub const CLOSURE_SIZE: u32 = 5;

// The places of the pairs of offset and length in the head.
pub const SETTINGS_PAIR: u32 = 2;

pub const SEGMENTS_PAIR: u32 = 10;

pub const CLOSURES_PAIR: u32 = 18;

// Where the settings and the segments begin.
pub const SETTINGS_START: u32 = 26;

pub const SEGMENTS_START: u32 = 33;
