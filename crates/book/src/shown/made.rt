// Keeping what a plan shows, and telling it.
ghost use Rattle.std.specs.Prelude.{◌≡◌, length};
ghost use Rattle.std.specs.List.{slice_get};
ghost use Rattle.std.specs.Option.{option_map};
ghost use Rattle.plan.specs.Content.{content};
ghost use Rattle.book.specs.Meaning.{four};
ghost use Rattle.book.specs.Shown.{plan_shown, road_of};
ghost use Rattle.book.specs.ShownPlan.{shown_of};

use super::ShownPlan;
use crate::legs::Sizes;
use crate::numbers::SegmentNumbers;
use arrayvec::ArrayVec;
use plan::Plan;

// The numbers of a segment of the plan.
fn numbers_of(plan: &Plan, number: u16) -> Option<SegmentNumbers>
    ensures { option_map road_of result ≡ slice_get (plan_shown (content plan.now)).roads number }
{
    let segment = plan.segment(number)?;
    Some(SegmentNumbers {
        start: segment.start,
        end: segment.end,
        slots: plan.travel_slots(number)?,
        count: plan.critical_count(number)?,
    })
}

impl ShownPlan {
    pub fn new(plan: &Plan) -> ShownPlan
        ensures { shown_of result ≡ plan_shown (content plan.now) }
    {
        let settings = plan.settings();
        let mut numbers = ArrayVec::new();
        for number in 0..plan.segment_count() {
            if let Some(segment) = numbers_of(plan, number) {
                numbers.push(segment);
            }
        }
        ShownPlan {
            horizon: settings.horizon,
            junctions: settings.junctions,
            numbers,
        }
    }

    pub fn sizes(&self) -> Sizes
        ensures horizon { result.horizon ≡ (shown_of self.now).horizon }
        ensures junctions { result.junctions ≡ (shown_of self.now).junctions }
        ensures segments { result.segments ≡ length (shown_of self.now).roads }
    {
        Sizes {
            horizon: self.horizon,
            junctions: self.junctions,
            segments: self.numbers.len() as u16,
        }
    }

    // The four numbers as a tuple: the form of that question of a book is fixed.
    pub fn segment(&self, segment: u16) -> Option<(u16, u16, u8, u8)>
        ensures { result ≡ option_map four (slice_get (shown_of self.now).roads segment) }
    {
        let numbers = self.numbers.get(segment as usize)?;
        Some((numbers.start, numbers.end, numbers.slots, numbers.count))
    }
}
