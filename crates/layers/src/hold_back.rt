// A layer that lowers each critical count.
ghost use Rattle.std.specs.Prelude.{◌≡◌};
ghost use Rattle.book.proofs.Layering.{held_sound};
ghost use Rattle.book.specs.Layered.{held_back};

use book::{Book, Leg, Sizes};
use plan::Refusal;

// Each critical count is lowered by `held`, not below 0.
#[derive(Drop)]
pub struct HoldBackLayer<B> {
    below: B,
    held: u8,
}

impl<B: Book> HoldBackLayer<B> {
    pub fn new(below: B, held: u8) -> HoldBackLayer<B>
        ensures below { result.below ≡ below }
        ensures held { result.held ≡ held }
    {
        HoldBackLayer { below, held }
    }
}

impl<B: Book> Book for HoldBackLayer<B> {
    ghost meaning = { λ l. held_back l.held (B.Book.meaning l.below) };

    ghost sound = { λ l. held_sound l.held (B.Book.meaning l.below) (B.Book.sound l.below) };

    fn sizes(&self) -> Sizes {
        self.below.sizes()
    }

    fn segment(&self, segment: u16) -> Option<(u16, u16, u8, u8)> {
        let (start, end, slots, count) = self.below.segment(segment)?;
        Some((start, end, slots, count.saturating_sub(self.held)))
    }

    fn standing(&self, leg: Leg) -> u16 {
        self.below.standing(leg)
    }

    fn total(&self) -> u16 {
        self.below.total()
    }

    fn admissible(&self, leg: Leg) -> bool {
        self.below.admissible_held_back(leg, self.held)
    }

    fn reserve(&mut self, leg: Leg) -> Result<(), Refusal> {
        if !self.admissible(leg) {
            return Err(Refusal::LegNotAdmissible);
        }
        self.below.reserve(leg)
    }

    fn free(&mut self, leg: Leg) -> Result<(), Refusal> {
        self.below.free(leg)
    }

    fn load(&self, segment: u16, slot: u16) -> u32 {
        self.below.load(segment, slot)
    }

    fn admissible_held_back(&self, leg: Leg, held: u8) -> bool {
        let held = self.held.saturating_add(held);
        self.below.admissible_held_back(leg, held)
    }

    fn next_entry_held_back(&self, segment: u16, from: u16, held: u8) -> Option<u16> {
        let held = self.held.saturating_add(held);
        self.below.next_entry_held_back(segment, from, held)
    }
}
