// What a plan tells. No question changes it. Segments and closures are asked for in like words: each body is one call of
// the library, and what they shared would be longer.
ghost use Rattle.std.specs.Prelude.{◌≡◌, length};
ghost use Rattle.std.specs.List.{slice_get};
ghost use Rattle.plan.specs.Content.{Fits, content, critical_at, travel_at};

use super::Plan;
use crate::parts::{Closure, Segment, Settings};

impl Plan {
    pub fn settings(&self) -> Settings
        ensures value { result ≡ (content self.now).settings }
        ensures in_range { Fits (content self.now) }
    {
        self.settings
    }

    pub fn segment_count(&self) -> u16
        ensures { result ≡ length (content self.now).segments }
    {
        self.segments.len() as u16
    }

    pub fn closure_count(&self) -> u16
        ensures { result ≡ length (content self.now).closures }
    {
        self.closures.len() as u16
    }

    // In the order of their numbers.
    pub fn segments(&self) -> &[Segment]
        ensures { result.now ≡ (content self.now).segments }
    {
        self.segments.as_slice()
    }

    // In the order of their numbers.
    pub fn closures(&self) -> &[Closure]
        ensures { result.now ≡ (content self.now).closures }
    {
        self.closures.as_slice()
    }

    pub fn segment(&self, number: u16) -> Option<Segment>
        ensures { result ≡ slice_get (content self.now).segments number }
    {
        self.segments.get(number as usize).copied()
    }

    pub fn closure(&self, number: u16) -> Option<Closure>
        ensures { result ≡ slice_get (content self.now).closures number }
    {
        self.closures.get(number as usize).copied()
    }

    // How many slots a carrier takes for the segment.
    pub fn travel_slots(&self, number: u16) -> Option<u8>
        ensures { result ≡ travel_at (content self.now) number }
    {
        let segment = self.segment(number)?;
        Some(segment.travel_slots(self.settings) as u8)
    }

    // How many carriers the segment may carry at once.
    pub fn critical_count(&self, number: u16) -> Option<u8>
        ensures { result ≡ critical_at (content self.now) number }
    {
        let segment = self.segment(number)?;
        Some(segment.critical_count(self.settings))
    }
}
