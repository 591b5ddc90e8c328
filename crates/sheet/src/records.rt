// The records of a sheet: settings, segments and closures from their bytes and as bytes.
ghost use Rattle.std.specs.Prelude.{◌≡◌, ◌<◌, length, refl};
ghost use Rattle.std.proofs.Common.{arith};
ghost use Rattle.std.specs.Iterator.{item_count};
ghost use Rattle.plan.specs.Ranges.{closure_rules, segment_rules};
ghost use Rattle.plan.specs.Rules.{first_broken};
ghost use Rattle.sheet.specs.Format.{closure_layout, number_layout, segment_layout, settings_layout};
ghost use Rattle.sheet.specs.Nexts.{Next, Takes};
ghost use Rattle.sheet.specs.Records.{Layout, size, told, told_all, written};
ghost use Rattle.sheet.specs.Verdict.{PartRules};

use plan::ranges::{closure_refusal, segment_refusal};
use plan::{Closure, Refusal, Segment, Settings};
use std::marker::PhantomData;

// What a sheet has in `SIZE` bytes.
pub(crate) trait Record<const SIZE: usize>: Copy {
    ghost layout: { Layout Self };

    fn bytes(self) -> [u8; SIZE]
        ensures { result ≡ written layout self };

    ghost sized: { size layout.widths ≡ SIZE };

    ghost small: { SIZE < 256 };
}

// A record of which a section has any number.
pub(crate) trait Part<const SIZE: usize>: Record<SIZE> {
    ghost rules: { PartRules Self };

    // The first record of a section, and the rest of the section.
    fn first(section: &[u8]) -> Option<(Self, &[u8])>
        ensures { Next Self.layout section.now result };

    // Why it cannot stand in a plan with these settings and so many segments.
    fn refusal(self, settings: Settings, segments: u16) -> Option<Refusal>
        ensures { result ≡ first_broken (rules settings segments self) };
}

// The records of a section, one after the other.
#[derive(Clone, Copy)]
pub(crate) struct Parts<'a, R, const SIZE: usize> {
    rest: &'a [u8],
    kind: PhantomData<R>,
}

impl<'a, R: Part<SIZE>, const SIZE: usize> Parts<'a, R, SIZE> {
    pub(crate) fn of(section: &'a [u8]) -> Parts<'a, R, SIZE>
        ensures { result.rest.now ≡ section.now }
    {
        Parts {
            rest: section,
            kind: PhantomData,
        }
    }
}

impl<'a, R: Part<SIZE>, const SIZE: usize> Iterator for Parts<'a, R, SIZE> {
    type Item = R;

    ghost next_gives = { λ s r t. Takes R.layout s.rest.now r t.rest.now };

    ghost remaining = { item_count (λ s. told_all R.layout s.rest.now) };

    fn next(&mut self) -> Option<R> {
        let (part, rest) = R::first(self.rest)?;
        self.rest = rest;
        Some(part)
    }
}

// A number of the head.
impl Record<4> for u32 {
    ghost layout = { number_layout };

    ghost sized = { refl };

    ghost small = { Prim.omega arith };

    fn bytes(self) -> [u8; 4] {
        self.to_be_bytes()
    }
}

impl Record<7> for Settings {
    ghost layout = { settings_layout };

    ghost sized = { refl };

    ghost small = { Prim.omega arith };

    fn bytes(self) -> [u8; 7] {
        let [slot_high, slot_low] = self.slot_length.to_be_bytes();
        let [density_high, density_low] = self.density.to_be_bytes();
        let [horizon_high, horizon_low] = self.horizon.to_be_bytes();
        let [_, junctions] = self.junctions.to_be_bytes();
        [
            slot_high,
            slot_low,
            density_high,
            density_low,
            horizon_high,
            horizon_low,
            junctions,
        ]
    }
}

impl Record<6> for Segment {
    ghost layout = { segment_layout };

    ghost sized = { refl };

    ghost small = { Prim.omega arith };

    fn bytes(self) -> [u8; 6] {
        let [_, start] = self.start.to_be_bytes();
        let [_, end] = self.end.to_be_bytes();
        let [length_high, length_low] = self.length.to_be_bytes();
        [start, end, length_high, length_low, self.lanes, self.class]
    }
}

impl Record<5> for Closure {
    ghost layout = { closure_layout };

    ghost sized = { refl };

    ghost small = { Prim.omega arith };

    fn bytes(self) -> [u8; 5] {
        let [_, segment] = self.segment.to_be_bytes();
        let [first_high, first_low] = self.first.to_be_bytes();
        let [end_high, end_low] = self.end.to_be_bytes();
        [segment, first_high, first_low, end_high, end_low]
    }
}

pub(crate) fn settings_of(section: &[u8]) -> Settings
    requires { length section.now ≡ 7 }
    ensures { result ≡ told settings_layout section.now }
{
    match section {
        [
            slot_high,
            slot_low,
            density_high,
            density_low,
            horizon_high,
            horizon_low,
            junctions,
        ] => Settings {
            slot_length: u16::from_be_bytes([*slot_high, *slot_low]),
            density: u16::from_be_bytes([*density_high, *density_low]),
            horizon: u16::from_be_bytes([*horizon_high, *horizon_low]),
            junctions: *junctions as u16,
        },
        // The caller shows that there are seven.
        _ => unreachable(),
    }
}

impl Part<6> for Segment {
    ghost rules = { λ settings _ segment. segment_rules settings segment };

    fn first(section: &[u8]) -> Option<(Segment, &[u8])> {
        match section {
            [start, end, length_high, length_low, lanes, class, rest @ ..] => {
                let segment = Segment {
                    start: *start as u16,
                    end: *end as u16,
                    length: u16::from_be_bytes([*length_high, *length_low]),
                    lanes: *lanes,
                    class: *class,
                };
                Some((segment, rest))
            }
            _ => None,
        }
    }

    fn refusal(self, settings: Settings, _segments: u16) -> Option<Refusal> {
        segment_refusal(settings, self)
    }
}

impl Part<5> for Closure {
    ghost rules = { closure_rules };

    fn first(section: &[u8]) -> Option<(Closure, &[u8])> {
        match section {
            [segment, first_high, first_low, end_high, end_low, rest @ ..] => {
                let closure = Closure {
                    segment: *segment as u16,
                    first: u16::from_be_bytes([*first_high, *first_low]),
                    end: u16::from_be_bytes([*end_high, *end_low]),
                };
                Some((closure, rest))
            }
            _ => None,
        }
    }

    fn refusal(self, settings: Settings, segments: u16) -> Option<Refusal> {
        closure_refusal(settings, segments, self)
    }
}
