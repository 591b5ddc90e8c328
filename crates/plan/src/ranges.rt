// Whether a part of a plan is within its ranges. An answer is what the first broken rule says, or none, as `first_broken` of
// the rules is; a `Result` with nothing in `Ok` would be no plainer.
ghost use Rattle.std.specs.Prelude.{◌≡◌};
ghost use Rattle.plan.specs.Ranges.{closure_rules, joined, measured, segment_rules, settings_rules};
ghost use Rattle.plan.specs.Rules.{first_broken};

use crate::limits::{MOST_CLASS, MOST_JUNCTIONS, MOST_SLOTS, MOST_TRAVEL};
use crate::parts::{Closure, Segment, Setting, Settings};
use crate::refusals::Refusal;

// The first setting that is out of its range. Every `u16` is a density.
#[tactic(auto, unfolding(crate::specs::Ranges::settings_rules))]
pub fn setting_out_of_range(settings: Settings) -> Option<Setting>
    ensures { result ≡ first_broken (settings_rules settings) }
{
    if settings.slot_length == 0 {
        return Some(Setting::SlotLength);
    }
    if !(1..=MOST_SLOTS).contains(&settings.horizon) {
        return Some(Setting::Horizon);
    }
    if !(2..=MOST_JUNCTIONS).contains(&settings.junctions) {
        return Some(Setting::Junctions);
    }
    None
}

impl Segment {
    // Start and end are two known junctions.
    fn is_joined(self, settings: Settings) -> bool
        ensures { result ≡ joined settings self }
    {
        self.start < settings.junctions && self.end < settings.junctions && self.start != self.end
    }

    fn is_measured(self) -> bool
        ensures { result ≡ measured self }
    {
        self.length > 0 && self.lanes > 0 && self.class <= MOST_CLASS
    }
}

// Why a segment cannot stand in a plan with these settings.
#[tactic(auto, unfolding(crate::specs::Ranges::segment_rules))]
pub fn segment_refusal(settings: Settings, segment: Segment) -> Option<Refusal>
    ensures { result ≡ first_broken (segment_rules settings segment) }
{
    if !segment.is_joined(settings) || !segment.is_measured() {
        return Some(Refusal::SegmentOutOfRange);
    }
    if segment.travel_slots(settings) > MOST_TRAVEL {
        return Some(Refusal::TravelTooLong);
    }
    None
}

// Why a closure cannot stand in a plan with these settings and so many segments.
#[tactic(auto, unfolding(crate::specs::Ranges::closure_rules))]
pub fn closure_refusal(settings: Settings, segments: u16, closure: Closure) -> Option<Refusal>
    ensures { result ≡ first_broken (closure_rules settings segments closure) }
{
    if closure.segment >= segments
        || closure.first >= closure.end
        || closure.end > settings.horizon
    {
        return Some(Refusal::ClosureOutOfRange);
    }
    None
}
