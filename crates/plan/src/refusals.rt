// Every refusal of the product, and the fault that carries one.
ghost use Rattle.std.specs.Prelude.{◌≡◌, Some};
ghost use Rattle.plan.specs.declared.refusals.PlanError.TheVariants.{NoMemory, Refused};
ghost use Rattle.plan.specs.Refusals.{outside, refusal_number, refusal_words, section_number};

use std::alloc::AllocError;
use std::error::Error;
use std::fmt;

// Each case is named for what is wrong. Its number is fixed for good: C programs, call lines and people rely on it.
#[derive(Clone, Copy, PartialEq, Eq, Debug)]
pub enum Refusal {
    SheetTooShort = 1,
    FormatUnknown = 2,
    SectionMisplaced = 3,
    SectionLengthWrong = 4,
    SettingOutOfRange = 5,
    PlanFull = 6,
    SegmentOutOfRange = 7,
    TravelTooLong = 8,
    ClosureOutOfRange = 9,
    MemoryTooShort = 10,
    JunctionUnknown = 11,
    OriginIsDestination = 12,
    SlotPastHorizon = 13,
    ScratchTooSmall = 14,
    NumbersUsedUp = 15,
    BookingsFull = 16,
    NoWalk = 17,
    TooManyLegs = 18,
    TokenNotStanding = 19,
    NumberNotParked = 20,
    LegNotAdmissible = 21,
    LegsFull = 22,
    LegNotStanding = 23,
    LineMalformed = 24,
}

impl Refusal {
    pub fn number(self) -> u8
        ensures { result ≡ refusal_number self }
    {
        self as u8
    }
}

impl fmt::Display for Refusal {
    ghost output = { λ refusal. Some (refusal_words refusal) };

    fn fmt<W: fmt::Write>(&self, f: &mut fmt::Formatter<W>) -> fmt::Result {
        f.write_str(match self {
            Refusal::SheetTooShort => "the sheet has fewer than 26 bytes",
            Refusal::FormatUnknown => "the format is unknown",
            Refusal::SectionMisplaced => "a section is misplaced",
            Refusal::SectionLengthWrong => "a section has a wrong length",
            Refusal::SettingOutOfRange => "a setting is out of range",
            Refusal::PlanFull => "the plan is full",
            Refusal::SegmentOutOfRange => "a segment is out of range",
            Refusal::TravelTooLong => "a segment takes more than 64 slots",
            Refusal::ClosureOutOfRange => "a closure is out of range",
            Refusal::MemoryTooShort => "the memory is too short for the sheet",
            Refusal::JunctionUnknown => "a junction is unknown",
            Refusal::OriginIsDestination => "origin and destination are equal",
            Refusal::SlotPastHorizon => "the slot is not below the horizon",
            Refusal::ScratchTooSmall => "the scratch is too small",
            Refusal::NumbersUsedUp => "all numbers have been given",
            Refusal::BookingsFull => "64 bookings stand",
            Refusal::NoWalk => "no admissible walk exists",
            Refusal::TooManyLegs => "the route has too many legs",
            Refusal::TokenNotStanding => "the token does not stand",
            Refusal::NumberNotParked => "the number is not parked",
            Refusal::LegNotAdmissible => "the leg is not admissible",
            Refusal::LegsFull => "1,024 legs stand",
            Refusal::LegNotStanding => "the leg does not stand",
            Refusal::LineMalformed => "the line is malformed",
        })
    }
}

impl Error for Refusal {}

// Where a fault was met: in one of a sheet's three sections, or outside them, which is in the head or in no sheet.
#[derive(Clone, Copy, PartialEq, Eq, Debug)]
pub enum Section {
    Outside = 0,
    Settings = 1,
    Segments = 2,
    Closures = 3,
}

impl Section {
    pub fn number(self) -> u8
        ensures { result ≡ section_number self }
    {
        self as u8
    }
}

// A refusal and where in a sheet it was met: the section and the first byte of the place, counted from the sheet's
// start. For a fault in no sheet the place is 0.
#[derive(Clone, Copy, PartialEq, Eq, Debug)]
pub struct Fault {
    pub refusal: Refusal,
    pub section: Section,
    pub place: u32,
}

impl Fault {
    pub fn outside_sheet(refusal: Refusal) -> Fault
        ensures { result ≡ outside refusal }
    {
        Fault {
            refusal,
            section: Section::Outside,
            place: 0,
        }
    }
}

impl From<Refusal> for Fault {
    ghost from_gives = { λ refusal fault. fault ≡ outside refusal };

    fn from(refusal: Refusal) -> Fault {
        Fault::outside_sheet(refusal)
    }
}

// Why there is no plan: a fault of what was handed in, or want of memory.
#[derive(Clone, Copy, PartialEq, Eq, Debug)]
pub enum PlanError {
    Refused(Fault),
    NoMemory,
}

impl From<Fault> for PlanError {
    ghost from_gives = { λ fault error. error ≡ Refused fault };

    fn from(fault: Fault) -> PlanError {
        PlanError::Refused(fault)
    }
}

impl From<AllocError> for PlanError {
    ghost from_gives = { λ _ error. error ≡ NoMemory };

    fn from(_error: AllocError) -> PlanError {
        PlanError::NoMemory
    }
}
