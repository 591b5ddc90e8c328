// The critical count of a segment.
ghost use Rattle.std.specs.Prelude.{◌≡◌};
ghost use Rattle.plan.specs.Critical.{critical};

use crate::limits::MOST_COUNT;
use crate::parts::{Segment, Settings};

impl Segment {
    #[tactic(auto, unfolding(crate::specs::Critical::critical))]
    pub(crate) fn critical_count(self, settings: Settings) -> u8
        ensures { result ≡ critical settings self }
    {
        let thousandths = self.length as u64 * self.lanes as u64 * settings.density as u64;
        (thousandths / 1000).min(MOST_COUNT) as u8
    }
}
