// What every book answers, by its meaning.
ghost use Rattle.std.specs.Prelude.{◌≡◌, false, is_ok};
ghost use Rattle.book.specs.Calls.{Freed, Reserved};
ghost use Rattle.book.specs.Entries.{NextEntry};
ghost use Rattle.book.specs.Layered.{held_back};
ghost use Rattle.book.specs.Loads.{admissible as admits, load as load_in};
ghost use Rattle.book.specs.Meaning.{Meaning, Sound, segment_of, sizes_of, total as all_standing};

use crate::legs::{Leg, Sizes};
use plan::Refusal;

pub trait Book {
    ghost meaning: { Self → Meaning };

    fn sizes(&self) -> Sizes
        ensures { result ≡ sizes_of (meaning self.now) };

    // The start and end junction, the travel slots and the critical count of a segment.
    fn segment(&self, segment: u16) -> Option<(u16, u16, u8, u8)>
        ensures { result ≡ segment_of (meaning self.now) segment };

    fn standing(&self, leg: Leg) -> u16
        ensures { result ≡ (meaning self.now).standing leg.segment leg.entry };

    fn total(&self) -> u16
        ensures { result ≡ all_standing (meaning self.now) };

    fn admissible(&self, leg: Leg) -> bool
        ensures { result ≡ admits (meaning self.now) leg };

    // One leg more. After a refusal the book is, as a value, what it was.
    fn reserve(&mut self, leg: Leg) -> Result<(), Refusal>
        ensures does { Reserved (meaning self.old) leg result (meaning self.new) }
        ensures refused { is_ok result ≡ false → self.new ≡ self.old };

    // One leg less. After a refusal the book is, as a value, what it was.
    fn free(&mut self, leg: Leg) -> Result<(), Refusal>
        ensures does { Freed (meaning self.old) leg result (meaning self.new) }
        ensures refused { is_ok result ≡ false → self.new ≡ self.old };

    // ---- Questions with a body, which a book that has a quicker way replaces.

    // How many standing legs of the segment hold the slot.
    fn load(&self, segment: u16, slot: u16) -> u32
        ensures { result ≡ load_in (meaning self.now) segment slot }
    {
        let Some((_, _, slots, _)) = self.segment(segment) else {
            return 0;
        };
        let past = slot as u32 + 1;
        (past.saturating_sub(slots as u32)..past)
            .map(|start| {
                let leg = Leg {
                    segment,
                    entry: start as u16,
                };
                self.standing(leg) as u32
            })
            .sum()
    }

    // Whether the leg is admissible once each critical count is lowered by `held`. The load of the entry slot is asked, and that of
    // each next slot follows from the legs that enter and leave. `rooms::has_room_held_back` goes so too, but cannot be called
    // here, as a trait's own bodies give less than a bound of it asks.
    fn admissible_held_back(&self, leg: Leg, held: u8) -> bool
        ensures { result ≡ admits (held_back held (meaning self.now)) leg }
    {
        if !self.admissible(leg) {
            return false;
        }
        let Some((_, _, slots, count)) = self.segment(leg.segment) else {
            return false;
        };
        let limit = count.saturating_sub(held) as u32;
        let mut load = self.load(leg.segment, leg.entry);
        for slot in leg.entry..leg.entry + slots as u16 {
            if load >= limit {
                return false;
            }
            let next = slot + 1;
            load += self.standing(Leg { entry: next, ..leg }) as u32;
            if let Some(gone) = next.checked_sub(slots as u16) {
                load -= self.standing(Leg { entry: gone, ..leg }) as u32;
            }
        }
        true
    }

    // The smallest entry from the slot `from` on that is admissible once each critical count is lowered by `held`.
    fn next_entry_held_back(&self, segment: u16, from: u16, held: u8) -> Option<u16>
        ensures { NextEntry (held_back held (meaning self.now)) segment from result }
    {
        (from..self.sizes().horizon).find(|slot| {
            let leg = Leg {
                segment,
                entry: *slot,
            };
            self.admissible_held_back(leg, held)
        })
    }

    // What every book keeps, proved for every value of the type.
    ghost sound: { (b : Self) → Sound (meaning b) };
}
