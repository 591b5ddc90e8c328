// A road plan. It never leaves its ranges: the ghost fields hold of every value of the type.
ghost use Rattle.std.specs.Prelude.{◌≡◌, ◌≤◌, true, vec_len, vec_capacity};
ghost use Rattle.plan.specs.Limits.{most_closures, most_segments};
ghost use Rattle.plan.specs.Ranges.{closures_fit, segments_fit, settings_fit};

use crate::parts::{Closure, Segment, Settings};

pub mod additions;
pub mod questions;

// Room for the most segments and closures is reserved when the plan is begun, so that an addition never lacks memory.
#[derive(Drop)]
pub struct Plan {
    settings: Settings,
    segments: Vec<Segment>,
    closures: Vec<Closure>,
    ghost settings_in_range: { settings_fit settings ≡ true },
    ghost segments_in_range: { segments_fit settings segments.items ≡ true },
    ghost closures_in_range: { closures_fit settings (vec_len segments) closures.items ≡ true },
    ghost few_segments: { vec_len segments ≤ most_segments },
    ghost few_closures: { vec_len closures ≤ most_closures },
    ghost segment_room: { most_segments ≤ vec_capacity segments },
    ghost closure_room: { most_closures ≤ vec_capacity closures },
}
