// What the closure layer does.
ghost use Rattle.std.specs.Prelude.{◌≡◌, ◌+◌, ◌≤◌, ◌&&◌, ◌==◌};
ghost use Rattle.book.proofs.Layering.{closed_sound};
ghost use Rattle.book.specs.Layered.{any_below, closed, closed_by, closing, covers};
ghost use Rattle.plan.specs.Content.{content};
ghost use Rattle.layers.specs.Closures.{ClosedUntil, kept_closures};

use super::ClosureLayer;
use arrayvec::ArrayVec;
use book::{Book, Leg, Sizes};
use plan::{Closure, Plan, Refusal};

// Whether the closure covers a slot that a leg with this entry holds.
fn covers_some(closure: Closure, entry: u16, slots: u8) -> bool
    ensures { result ≡ any_below slots (λ j. covers closure (entry + j)) }
{
    let end = entry as u32 + slots as u32;
    let first = closure.first.max(entry) as u32;
    first < end.min(closure.end as u32)
}

// Whether the closure bars the leg.
fn closes(closure: Closure, leg: Leg, slots: u8) -> bool
    ensures { result ≡ ((closure.segment == leg.segment)
        && any_below slots (λ j. covers closure (leg.entry + j))) }
{
    closure.segment == leg.segment && covers_some(closure, leg.entry, slots)
}

// Where a closure bars the leg, a later slot before which no entry is open.
fn closed_until(closures: &[Closure], leg: Leg, slots: u8) -> Option<u16>
    ensures { ClosedUntil (closed_by closures.now leg.segment slots) leg.entry result }
{
    closures
        .iter()
        .find(|closure| closes(**closure, leg, slots))
        .map(|closure| closure.end)
}

impl<B: Book> ClosureLayer<B> {
    // A layer over `below` with the closures of a plan.
    pub fn new(below: B, plan: &Plan) -> ClosureLayer<B>
        ensures below { result.below ≡ below }
        ensures closures { kept_closures result ≡ (content plan.now).closures }
    {
        let mut closures = ArrayVec::new();
        for closure in plan.closures() {
            closures.push(*closure);
        }
        ClosureLayer { below, closures }
    }
}

impl<B: Book> ClosureLayer<B> {
    // Where a closure bars the leg, a later slot before which no entry is open. A closure of a segment that is unknown
    // below bars nothing.
    fn barred_until(&self, leg: Leg) -> Option<u16>
        ensures { ClosedUntil (closing (kept_closures self.now)
            (B.Book.meaning self.now.below).shown leg.segment) leg.entry result }
    {
        let (_, _, slots, _) = self.below.segment(leg.segment)?;
        closed_until(&self.closures, leg, slots)
    }
}

impl<B: Book> Book for ClosureLayer<B> {
    ghost meaning = { λ l. closed (kept_closures l) (B.Book.meaning l.below) };

    ghost sound = { λ l. closed_sound (kept_closures l) (B.Book.meaning l.below) (B.Book.sound l.below) };

    fn sizes(&self) -> Sizes {
        self.below.sizes()
    }

    fn segment(&self, segment: u16) -> Option<(u16, u16, u8, u8)> {
        self.below.segment(segment)
    }

    fn standing(&self, leg: Leg) -> u16 {
        self.below.standing(leg)
    }

    fn total(&self) -> u16 {
        self.below.total()
    }

    fn admissible(&self, leg: Leg) -> bool {
        self.below.admissible(leg) && self.barred_until(leg).is_none()
    }

    fn reserve(&mut self, leg: Leg) -> Result<(), Refusal> {
        if !self.admissible(leg) {
            return Err(Refusal::LegNotAdmissible);
        }
        self.below.reserve(leg)
    }

    fn free(&mut self, leg: Leg) -> Result<(), Refusal> {
        self.below.free(leg)
    }

    fn load(&self, segment: u16, slot: u16) -> u32 {
        self.below.load(segment, slot)
    }

    fn admissible_held_back(&self, leg: Leg, held: u8) -> bool {
        self.below.admissible_held_back(leg, held) && self.barred_until(leg).is_none()
    }

    fn next_entry_held_back(&self, segment: u16, from: u16, held: u8) -> Option<u16> {
        let mut first = from;
        while let Some(slot) = self.below.next_entry_held_back(segment, first, held) {
            let leg = Leg {
                segment,
                entry: slot,
            };
            let Some(open) = self.barred_until(leg) else {
                return Some(slot);
            };
            first = open;
        }
        None
    }
}
