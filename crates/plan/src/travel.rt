// Travel slots of a segment.
ghost use Rattle.std.specs.Prelude.{◌≡◌, ◌+◌, ◌*◌, ◌^◌, ◌<◌, ◌≤◌};
ghost use Rattle.plan.specs.Travel.{speed, nearest, travel};

use crate::parts::{Segment, Settings};

// In centimetres a second.
const CLASS_SPEEDS: [u16; 16] = [
    125, 250, 375, 500, 625, 750, 875, 1000, 1125, 1250, 1375, 1500, 1625, 1750, 1875, 2000,
];

// The speed of a class in centimetres a second, 0 for a class that is none. Each caller would take none for 0, and the ranges
// refuse such a class.
pub fn class_speed(class: u8) -> u16
    ensures value { result ≡ speed class }
    ensures bound { result ≤ 2000 }
{
    CLASS_SPEEDS.get(class as usize).copied().unwrap_or(0)
}

// The whole number nearest to a / b, a half upwards, and 0 where b is 0.
fn nearest_quotient(a: u64, b: u64) -> u64
    requires { (a < 2 ^ 40) × (b < 2 ^ 40) }
    ensures { result ≡ nearest a b }
{
    (2 * a + b).checked_div(2 * b).unwrap_or(0)
}

impl Segment {
    #[tactic(auto, unfolding(crate::specs::Travel::travel))]
    pub(crate) fn travel_slots(self, settings: Settings) -> u64
        ensures { result ≡ travel settings self }
    {
        let way = self.length as u64 * 100_000;
        let way_per_slot = class_speed(self.class) as u64 * settings.slot_length as u64;
        nearest_quotient(way, way_per_slot).max(1)
    }
}
