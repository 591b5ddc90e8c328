// The head of a sheet: its format, and where its sections lie.
ghost use Rattle.std.specs.Prelude.{◌≡◌, ◌+◌, ◌<◌, ◌≤◌, length, Some, None, IfOk, IfErr, OnOk};
ghost use Rattle.plan.specs.Rules.{first_broken};
ghost use Rattle.sheet.specs.Format.{closures_pair, extent, offset, section, segments_pair, settings_layout, settings_pair};
ghost use Rattle.sheet.specs.Laid.{Laid};
ghost use Rattle.sheet.specs.Numbers.{field};
ghost use Rattle.sheet.specs.Records.{told};
ghost use Rattle.sheet.specs.Splits.{Splits};
ghost use Rattle.sheet.specs.Verdict.{extent_rules, format_rules, head_fault, holds_records, pair_rules, passed};

use crate::format::{
    CLOSURE_SIZE, CLOSURES_PAIR, FORMAT, HEAD_SIZE, SECTIONS, SEGMENT_SIZE, SEGMENTS_PAIR,
    SETTINGS_PAIR, SETTINGS_SIZE, SETTINGS_START,
};
use crate::records::settings_of;
use crate::sections::Sections;
use plan::limits::{MOST_CLOSURES, MOST_SEGMENTS};
use plan::{Fault, Refusal, Section};

// What the head says of a section.
#[derive(Clone, Copy)]
struct Pair {
    offset: u32,
    extent: u32,
}

impl Pair {
    fn end(self) -> u64
        ensures { result ≡ self.offset + self.extent }
    {
        self.offset as u64 + self.extent as u64
    }

    // Whether the section holds whole records of a size, and no more than `most`.
    fn holds(self, most: u16, size: u32) -> bool
        requires { 0 < size }
        ensures { result ≡ holds_records most size self.extent }
    {
        self.extent % size == 0 && self.extent as u64 <= most as u64 * size as u64
    }
}

// The big-endian number of four bytes from a place on.
fn number_at(bytes: &[u8], place: usize) -> u32
    requires { place + 4 ≤ length bytes.now }
    ensures { result ≡ field 4 place bytes.now }
{
    u32::from_be_bytes([
        bytes[place],
        bytes[place + 1],
        bytes[place + 2],
        bytes[place + 3],
    ])
}

fn pair_at(bytes: &[u8], place: u32) -> Pair
    requires { place + 8 ≤ length bytes.now }
    ensures offset { result.offset ≡ offset place bytes.now }
    ensures extent { result.extent ≡ extent place bytes.now }
{
    let place = place as usize;
    Pair {
        offset: number_at(bytes, place),
        extent: number_at(bytes, place + 4),
    }
}

fn head_fault(place: u32, refusal: Refusal) -> Fault
    ensures { result ≡ head_fault place refusal }
{
    Fault {
        refusal,
        section: Section::Outside,
        place,
    }
}

// A sheet of a known format, with what its head says.
#[derive(Clone, Copy)]
struct Head<'a> {
    bytes: &'a [u8],
    settings: Pair,
    segments: Pair,
    closures: Pair,
    ghost whole: { 26 ≤ length bytes.now },
    ghost settings_offset: { settings.offset ≡ offset settings_pair bytes.now },
    ghost settings_extent: { settings.extent ≡ extent settings_pair bytes.now },
    ghost segments_offset: { segments.offset ≡ offset segments_pair bytes.now },
    ghost segments_extent: { segments.extent ≡ extent segments_pair bytes.now },
    ghost closures_offset: { closures.offset ≡ offset closures_pair bytes.now },
    ghost closures_extent: { closures.extent ≡ extent closures_pair bytes.now },
}

impl<'a> Head<'a> {
    #[tactic(auto, using(crate::proofs::ReadNumbers::field_one), unfolding(crate::specs::Verdict::format_rules))]
    fn read(bytes: &'a [u8]) -> Result<Head<'a>, Fault>
        ensures bytes { IfOk result (λ head. head.bytes.now ≡ bytes.now) }
        ensures sound { OnOk result (first_broken (format_rules bytes.now) ≡ None) }
        ensures fault { IfErr result (λ fault. first_broken (format_rules bytes.now) ≡ Some fault) }
    {
        if bytes.len() < HEAD_SIZE as usize {
            return Err(head_fault(0, Refusal::SheetTooShort));
        }
        if bytes[0] != FORMAT {
            return Err(head_fault(0, Refusal::FormatUnknown));
        }
        if bytes[1] != SECTIONS {
            return Err(head_fault(1, Refusal::FormatUnknown));
        }
        Ok(Head {
            bytes,
            settings: pair_at(bytes, SETTINGS_PAIR),
            segments: pair_at(bytes, SEGMENTS_PAIR),
            closures: pair_at(bytes, CLOSURES_PAIR),
        })
    }

    // The sections follow one another from the head to the end of the sheet.
    #[tactic(auto, unfolding(crate::specs::Verdict::pair_rules))]
    fn check_order(&self) -> Result<(), Fault>
        ensures { result ≡ passed (first_broken (pair_rules self.now.bytes.now)) }
    {
        if self.settings.offset != SETTINGS_START {
            return Err(head_fault(SETTINGS_PAIR, Refusal::SectionMisplaced));
        }
        if self.segments.offset as u64 != self.settings.end() {
            return Err(head_fault(SEGMENTS_PAIR, Refusal::SectionMisplaced));
        }
        if self.closures.offset as u64 != self.segments.end()
            || self.closures.end() != self.bytes.len() as u64
        {
            return Err(head_fault(CLOSURES_PAIR, Refusal::SectionMisplaced));
        }
        Ok(())
    }

    // Each section holds whole records, and no more than a plan.
    #[tactic(auto, unfolding(crate::specs::Verdict::extent_rules))]
    fn check_extents(&self) -> Result<(), Fault>
        ensures { result ≡ passed (first_broken (extent_rules self.now.bytes.now)) }
    {
        if self.settings.extent != SETTINGS_SIZE {
            return Err(head_fault(SETTINGS_PAIR, Refusal::SectionLengthWrong));
        }
        if !self.segments.holds(MOST_SEGMENTS, SEGMENT_SIZE) {
            return Err(head_fault(SEGMENTS_PAIR, Refusal::SectionLengthWrong));
        }
        if !self.closures.holds(MOST_CLOSURES, CLOSURE_SIZE) {
            return Err(head_fault(CLOSURES_PAIR, Refusal::SectionLengthWrong));
        }
        Ok(())
    }

    fn cut(&self) -> Sections<'a>
        requires { Laid self.now.bytes.now }
        ensures settings { result.settings ≡ told settings_layout (section settings_pair self.now.bytes.now) }
        ensures segments { result.segments.now ≡ section segments_pair self.now.bytes.now }
        ensures closures { result.closures.now ≡ section closures_pair self.now.bytes.now }
        ensures few_segments { length result.segments.now ≤ 768 }
        ensures few_closures { length result.closures.now ≤ 80 }
    {
        let start = self.segments.offset as usize;
        let end = start + self.segments.extent as usize;
        Sections {
            settings: settings_of(&self.bytes[SETTINGS_START as usize..start]),
            segments: &self.bytes[start..end],
            closures: &self.bytes[end..],
        }
    }
}

// The sections, where the head is in order.
pub(crate) fn split(bytes: &[u8]) -> Result<Sections<'_>, Fault>
    ensures { Splits bytes.now result }
{
    let head = Head::read(bytes)?;
    head.check_order()?;
    head.check_extents()?;
    Ok(head.cut())
}
