// The plan that a bottom book shows, with the numbers of each segment computed once.
ghost use Rattle.std.specs.Prelude.{ℕ, ◌<◌, ◌≤◌, length, slice_index_or};
ghost use Rattle.plan.specs.Limits.{most_junctions, most_segments, most_slots};
ghost use Rattle.book.specs.Meaning.{RoadFits, no_road};
ghost use Rattle.book.specs.Shown.{roads_of};

use crate::numbers::SegmentNumbers;
use arrayvec::ArrayVec;
use plan::limits::MOST_SEGMENTS;

pub mod made;

const SEGMENTS: usize = MOST_SEGMENTS as usize;

#[derive(Drop)]
pub struct ShownPlan {
    horizon: u16,
    junctions: u16,
    numbers: ArrayVec<SegmentNumbers, SEGMENTS>,
    ghost some_slot: { 1 ≤ horizon },
    ghost few_slots: { horizon ≤ most_slots },
    ghost two_junctions: { 2 ≤ junctions },
    ghost few_junctions: { junctions ≤ most_junctions },
    ghost few_segments: { length numbers.items ≤ most_segments },
    ghost roads_fit: { (i : ℕ) → i < length numbers.items
        → RoadFits junctions (slice_index_or (roads_of numbers.items) i no_road) },
}
