// The plan of the worked example: 0 to 1 in 4 slots, 1 to 3 in 5, 0 to 2 in 5, 2 to 3 in 4, each with critical count 1;
// segment 1 is closed in the slots 15 and 16.
use plan::{Closure, Segment, Settings};

pub const SETTINGS: Settings = Settings {
    slot_length: 1000,
    density: 30,
    horizon: 20,
    junctions: 4,
};

pub const ROADS: [Segment; 4] = [
    Segment {
        start: 0,
        end: 1,
        length: 40,
        lanes: 1,
        class: 7,
    },
    Segment {
        start: 1,
        end: 3,
        length: 45,
        lanes: 1,
        class: 7,
    },
    Segment {
        start: 0,
        end: 2,
        length: 50,
        lanes: 1,
        class: 7,
    },
    Segment {
        start: 2,
        end: 3,
        length: 40,
        lanes: 1,
        class: 7,
    },
];

pub const CLOSED: Closure = Closure {
    segment: 1,
    first: 15,
    end: 17,
};
