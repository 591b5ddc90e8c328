// What a book tells of a segment.

// Its start and end junction, its travel slots and its critical count.
#[derive(Clone, Copy, Default)]
pub struct SegmentNumbers {
    pub start: u16,
    pub end: u16,
    pub slots: u8,
    pub count: u8,
}
