// A row of entering counts: how many legs of one segment enter at each slot. Bottom books decide their legs by it.
ghost use Rattle.std.specs.Prelude.{◌≡◌, ◌+◌, ◌-◌, ◌*◌, ◌<◌, ◌≤◌, length, sum, MatchOption};
ghost use Rattle.book.specs.Entries.{NextEntry};
ghost use Rattle.book.specs.Layered.{held_back};
ghost use Rattle.book.specs.Loads.{admissible as admits, load as load_in, load_below};
ghost use Rattle.book.specs.Meaning.{Meaning, Sound};
ghost use Rattle.book.specs.Rows.{FirstFit, IsRow, NoRow, entering, row_load};

use crate::legs::Leg;

// A leg of the segment takes `slots` slots, and each of them has to have a load below the limit.
#[derive(Clone, Copy)]
pub struct Row<'a> {
    pub entering: &'a [u8],
    pub slots: u8,
    pub limit: u8,
}

// The sum of the counts, of which there are few enough that it fits.
fn total(counts: &[u8]) -> u32
    requires { length counts.now ≤ 65536 }
    ensures value { result ≡ sum counts.now }
    ensures bound { result ≤ 255 * length counts.now }
{
    counts.iter().map(|n| *n as u32).sum()
}

impl<'a> Row<'a> {
    // How many legs that enter before `end` hold the slot.
    fn entered_by(&self, end: usize, slot: usize) -> u32
        requires within { end ≤ length self.now.entering.now }
        requires by_then { end ≤ slot + 1 }
        requires near { slot < 65536 }
        ensures value { result ≡ load_below end (entering self.now.entering.now) self.now.slots slot }
        ensures bound { result ≤ 255 * end }
    {
        let first = (slot + 1).saturating_sub(self.slots as usize).min(end);
        total(&self.entering[first..end])
    }

    // How many legs hold the slot.
    pub fn load(&self, slot: u16) -> u32
        ensures { result ≡ row_load self.now.entering.now self.now.slots slot }
    {
        let end = (slot as usize + 1).min(self.entering.len());
        self.entered_by(end, slot as usize)
    }

    // The same row, where a leg needs a load below a limit that is lower by `held`.
    fn held_back(&self, held: u8) -> Row<'a>
        ensures row { result.entering.now ≡ self.now.entering.now }
        ensures slots { result.slots ≡ self.now.slots }
        ensures limit { result.limit ≡ self.now.limit - held }
    {
        Row {
            limit: self.limit.saturating_sub(held),
            ..*self
        }
    }

    // The first entry, of those from `from` to `to`, at which a leg ends by the end of the row and has in each slot a load
    // below the limit. It goes over the slots once: the load of a slot follows from that of the slot before, and of the
    // slots so far the entry after the last full one is remembered. Each turn reads two places of the row, so it counts slots.
    pub fn first_entry(&self, from: u16, to: u16) -> Option<u16>
        ensures { 1 ≤ self.now.slots → FirstFit self.now.entering.now from to self.now.slots self.now.limit result }
    {
        let Row {
            entering,
            slots,
            limit,
        } = *self;
        let travel = slots as usize;
        let end = (to as usize + travel).min(entering.len());
        if travel == 0 || from as usize >= end {
            return None;
        }
        let mut load = self.entered_by(from as usize, from as usize);
        let mut first = from as usize;
        for slot in from as usize..end {
            load += entering[slot] as u32;
            if load >= limit as u32 {
                first = slot + 1;
                if first + travel > end {
                    return None;
                }
            } else if slot + 1 == first + travel {
                return Some(first as u16);
            }
            if slot + 1 >= travel {
                load -= entering[slot + 1 - travel] as u32;
            }
        }
        None
    }
}

// What has a row for each segment of which legs can be admissible.
pub trait Rows {
    ghost meaning: { Self → Meaning };

    // The answer to what is asked of the segment's row, if it has one.
    fn with_row<T, F: FnOnce(Row<'_>) -> T>(&self, segment: u16, ask: F) -> Option<T>
        requires { F.IsAlwaysCallable ask }
        ensures { MatchOption result (NoRow (meaning self.now) segment)
            (λ answer. (row : _) × IsRow (meaning self.now) segment row × F.post ask row answer) };

    ghost sound: { (b : Self) → Sound (meaning b) };
}

// How many legs of the segment hold the slot.
pub fn load<B: Rows>(book: &B, segment: u16, slot: u16) -> u32
    ensures { result ≡ load_in (B.meaning book.now) segment slot }
{
    book.with_row(segment, |row| row.load(slot)).unwrap_or(0)
}

// Whether the leg is admissible once each critical count is lowered by `held`.
pub fn admissible_held_back<B: Rows>(book: &B, leg: Leg, held: u8) -> bool
    ensures { result ≡ admits (held_back held (B.meaning book.now)) leg }
{
    book.with_row(
        leg.segment,
        |row| row.held_back(held).first_entry(leg.entry, leg.entry),
    )
    .flatten()
    .is_some()
}

// The smallest entry from the slot `from` on that is admissible once each critical count is lowered by `held`.
pub fn next_entry_held_back<B: Rows>(book: &B, segment: u16, from: u16, held: u8) -> Option<u16>
    ensures { NextEntry (held_back held (B.meaning book.now)) segment from result }
{
    book.with_row(
        segment,
        |row| row.held_back(held).first_entry(from, u16::MAX),
    )
    .flatten()
}
