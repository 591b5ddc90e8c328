// Beginning a plan, and adding to it.
ghost use Rattle.std.specs.Prelude.{◌≡◌, ◌≤◌, true, false, cond, [], ◌∷◌, ◌++◌, is_ok, Some, None, nat_lt, vec_capacity, vec_items, vec_len};
ghost use Rattle.plan.specs.Content.{Begins, ClosureAdded, SegmentAdded, content, numbered};
ghost use Rattle.plan.specs.declared.refusals.Refusal.TheVariants.{PlanFull};

use super::Plan;
use crate::limits::{MOST_CLOSURES, MOST_SEGMENTS};
use crate::parts::{Closure, Segment, Settings};
use crate::ranges::{closure_refusal, segment_refusal, setting_out_of_range};
use crate::refusals::{Fault, PlanError, Refusal};
use std::alloc::Global;

// Adds a part to a list with room for `most` and answers its number, unless the list is full or the part is refused.
fn add<T: Copy>(
    parts: &mut Vec<T>,
    most: u16,
    part: T,
    refusal: Option<Refusal>,
) -> Result<u16, Fault>
    requires room { most ≤ vec_capacity parts.old }
    ensures answer { result ≡ numbered (cond (nat_lt (vec_len parts.old) most) refusal (Some PlanFull))
        (vec_len parts.old) }
    ensures grown { vec_items parts.new
        ≡ cond (is_ok result) (vec_items parts.old ++ part ∷ []) (vec_items parts.old) }
    ensures taken { is_ok result ≡ true → refusal ≡ None }
    ensures refused { is_ok result ≡ false → parts.new ≡ parts.old }
    ensures more { vec_len parts.old ≤ vec_len parts.new }
    ensures few { vec_len parts.old ≤ most → vec_len parts.new ≤ most }
    ensures reserved { vec_capacity parts.new ≡ vec_capacity parts.old }
{
    let number = parts.len();
    if number >= most as usize {
        return Err(Refusal::PlanFull.into());
    }
    if let Some(refusal) = refusal {
        return Err(refusal.into());
    }
    parts.push_reserved(part);
    Ok(number as u16)
}

impl Plan {
    // A plan with no segment and no closure.
    pub fn begin(heap: Global, settings: Settings) -> Result<Plan, PlanError>
        ensures { Begins settings result }
    {
        if setting_out_of_range(settings).is_some() {
            return Err(Fault::from(Refusal::SettingOutOfRange).into());
        }
        let segments = Vec::with_capacity(heap, MOST_SEGMENTS as usize)?;
        let closures = Vec::with_capacity(heap, MOST_CLOSURES as usize)?;
        Ok(Plan {
            settings,
            segments,
            closures,
        })
    }

    // Adds a segment and answers its number.
    pub fn add_segment(&mut self, segment: Segment) -> Result<u16, Fault>
        ensures added { SegmentAdded (content self.old) segment result (content self.new) }
        ensures refused { is_ok result ≡ false → self.new ≡ self.old }
    {
        let refusal = segment_refusal(self.settings, segment);
        add(&mut self.segments, MOST_SEGMENTS, segment, refusal)
    }

    // Adds a closure and answers its number.
    pub fn add_closure(&mut self, closure: Closure) -> Result<u16, Fault>
        ensures added { ClosureAdded (content self.old) closure result (content self.new) }
        ensures refused { is_ok result ≡ false → self.new ≡ self.old }
    {
        let segments = self.segments.len() as u16;
        let refusal = closure_refusal(self.settings, segments, closure);
        add(&mut self.closures, MOST_CLOSURES, closure, refusal)
    }
}
