// Whether a leg has room, by the loads of the slots that it would hold: one pass over the entries whose legs it could meet.
ghost use Rattle.std.specs.Prelude.{◌≡◌, ◌+◌, ◌<◌, ◌≤◌};
ghost use Rattle.book.specs.Layered.{held_back};
ghost use Rattle.book.specs.Loads.{has_room, load as load_in};
ghost use Rattle.book.specs.Meaning.{horizon, road, segments};
ghost use Rattle.book.specs.Rooms.{room_below};

use crate::books::Book;
use crate::legs::Leg;

// A slot of a segment and its load, which the legs that entered from `slots - 1` slots before it on make up.
#[derive(Drop)]
struct Window<'a, B: Book> {
    book: &'a B,
    segment: u16,
    slots: u8,
    slot: u16,
    load: u32,
    ghost known: { segment < segments (B.Book.meaning book.now) },
    ghost travel: { slots ≡ (road (B.Book.meaning book.now) segment).slots },
    ghost loaded: { load ≡ load_in (B.Book.meaning book.now) segment slot },
}

impl<'a, B: Book> Window<'a, B> {
    fn new(book: &'a B, leg: Leg, slots: u8) -> Window<'a, B>
        requires known { leg.segment < segments (B.Book.meaning book.now) }
        requires travel { slots ≡ (road (B.Book.meaning book.now) leg.segment).slots }
        ensures book { result.book.now ≡ book.now }
        ensures segment { result.segment ≡ leg.segment }
        ensures slot { result.slot ≡ leg.entry }
    {
        Window {
            book,
            segment: leg.segment,
            slots,
            slot: leg.entry,
            load: book.load(leg.segment, leg.entry),
        }
    }

    // Moves on to the next slot: legs enter there, and those that entered `slots` slots before it no longer hold it.
    fn advance(&mut self)
        requires { self.old.slot < horizon (B.Book.meaning self.old.book.now) }
        ensures book { self.new.book ≡ self.old.book }
        ensures segment { self.new.segment ≡ self.old.segment }
        ensures slot { self.new.slot ≡ self.old.slot + 1 }
    {
        let next = self.slot + 1;
        let mut load = self.load + self.standing(next) as u32;
        if let Some(gone) = next.checked_sub(self.slots as u16) {
            load -= self.standing(gone) as u32;
        }
        self.load = load;
        self.slot = next;
    }

    fn standing(&self, entry: u16) -> u16
        ensures { result ≡ (B.Book.meaning self.now.book.now).standing self.now.segment entry }
    {
        self.book.standing(Leg {
            segment: self.segment,
            entry,
        })
    }
}

// Whether a leg that ends by the horizon has room once each critical count is lowered by `held`. Nothing is said of a leg
// that ends past the horizon, which is not admissible anyway.
pub fn has_room_held_back<B: Book>(book: &B, leg: Leg, held: u8) -> bool
    ensures { leg.segment < segments (B.Book.meaning book.now)
        → leg.entry + (road (B.Book.meaning book.now) leg.segment).slots
        ≤ horizon (B.Book.meaning book.now)
        → result ≡ has_room (held_back held (B.Book.meaning book.now)) leg }
{
    let Some((_, _, slots, count)) = book.segment(leg.segment) else {
        return false;
    };
    if leg.entry as u32 + slots as u32 > book.sizes().horizon as u32 {
        return false;
    }
    let limit = count.saturating_sub(held) as u32;
    let mut window = Window::new(book, leg, slots);
    for _ in 0..slots {
        if window.load >= limit {
            return false;
        }
        window.advance();
    }
    true
}
