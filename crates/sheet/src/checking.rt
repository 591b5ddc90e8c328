// The check of a sheet: its first fault, in checking order.
ghost use Rattle.std.specs.Prelude.{◌≡◌, ℕ, ◌+◌, ◌^◌, ◌<◌, ◌≤◌, List, length, None};
ghost use Rattle.plan.specs.Rules.{first_broken};
ghost use Rattle.sheet.specs.Records.{size, told_all};
ghost use Rattle.sheet.specs.Splits.{Split};
ghost use Rattle.sheet.specs.Verdict.{SheetOfAPlan, passed, record_rules, setting_fault, sheet_fault};

use crate::format::{SEGMENT_SIZE, SEGMENTS_START, SETTINGS_START};
use crate::head::split;
use crate::records::{Part, Parts};
use crate::sections::Sections;
use plan::ranges::setting_out_of_range;
use plan::{Closure, Fault, Refusal, Section, Segment, Setting, Settings};

// No `From`: both types are `plan`'s, and where a setting lies is this format's.
fn fault_of_setting(setting: Setting) -> Fault
    ensures { result ≡ setting_fault 26 setting }
{
    let place = match setting {
        Setting::SlotLength => SETTINGS_START,
        Setting::Density => SETTINGS_START + 2,
        Setting::Horizon => SETTINGS_START + 4,
        Setting::Junctions => SETTINGS_START + 6,
    };
    Fault {
        refusal: Refusal::SettingOutOfRange,
        section: Section::Settings,
        place,
    }
}

// The first fault of a section that begins at `start`, in a sheet with these settings and so many segments.
fn check_parts<R: Part<SIZE>, const SIZE: usize>(
    settings: Settings,
    segments: u16,
    section: Section,
    start: u32,
    bytes: &[u8],
) -> Result<(), Fault>
    requires { start + length bytes.now < 2 ^ 32 }
    ensures { result ≡ passed (first_broken
        (record_rules (R.rules settings segments) section (size R.layout.widths) start (told_all R.layout bytes.now))) }
{
    let mut place = start;
    for part in Parts::<R, _>::of(bytes) {
        if let Some(refusal) = part.refusal(settings, segments) {
            return Err(Fault {
                refusal,
                section,
                place,
            });
        }
        // Counted, since a range of places to zip with would need an end, which is no shorter to say.
        place += SIZE as u32;
    }
    Ok(())
}

// The first fault of the sections of a sheet.
pub(crate) fn check_sections(sections: Sections<'_>) -> Result<(), Fault>
    requires segments { length sections.segments.now ≤ 768 }
    requires closures { length sections.closures.now ≤ 80 }
    ensures { (bytes : List ℕ) → Split bytes sections.entry → result ≡ passed (sheet_fault bytes) }
{
    let settings = sections.settings;
    if let Some(setting) = setting_out_of_range(settings) {
        return Err(fault_of_setting(setting));
    }
    let extent = sections.segments.len() as u32;
    let segments = (extent / SEGMENT_SIZE) as u16;
    check_parts::<Segment, _>(
        settings,
        segments,
        Section::Segments,
        SEGMENTS_START,
        sections.segments,
    )?;
    check_parts::<Closure, _>(
        settings,
        segments,
        Section::Closures,
        SEGMENTS_START + extent,
        sections.closures,
    )
}

// The first fault of a sheet, or none. The fault is what is asked for, so it is an `Option`; `read` has it as an error.
pub fn check(bytes: &[u8]) -> Option<Fault>
    ensures first { result ≡ sheet_fault bytes.now }
    ensures accepts { result ≡ None → SheetOfAPlan bytes.now }
    ensures accepted { SheetOfAPlan bytes.now → result ≡ None }
{
    match split(bytes) {
        Ok(sections) => check_sections(sections).err(),
        Err(fault) => Some(fault),
    }
}
