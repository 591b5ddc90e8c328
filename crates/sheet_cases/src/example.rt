// The example sheet: slots of 1000 ms, density 30, horizon 20, four junctions, four segments, one closure.

pub const SHEET: [u8; 62] = [
    1, 3, 0, 0, 0, 26, 0, 0, 0, 7, 0, 0, 0, 33, 0, 0, 0, 24, 0, 0, 0, 57, 0, 0, 0, 5, 3, 232, 0,
    30, 0, 20, 4, 0, 1, 0, 40, 1, 7, 1, 3, 0, 45, 1, 7, 0, 2, 0, 50, 1, 7, 2, 3, 0, 40, 1, 7, 1, 0,
    15, 0, 17,
];
