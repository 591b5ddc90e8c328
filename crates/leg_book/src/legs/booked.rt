// What the leg book does.
ghost use Rattle.std.specs.Prelude.{◌≡◌, ℕ, ◌<◌, ◌≤◌, ◌≢◌, length, drop, MatchOption, nat_le, nat_lt, slice_index, slice_index_or};
ghost use Rattle.plan.specs.Content.{content};
ghost use Rattle.plan.specs.Limits.{most_legs, most_slots};
ghost use Rattle.book.specs.Bottom.{no_legs};
ghost use Rattle.book.specs.Shown.{plan_shown};
ghost use Rattle.leg_book.specs.LegBook.{legs_of, legs_sound};
ghost use Rattle.leg_book.specs.Records.{count_at, no_record, part_used};

use super::LegBook;
use crate::leg_record::LegRecord;
use book::rows::{Row, Rows};
use book::{Book, Leg, ShownPlan, Sizes, rows};
use plan::limits::{MOST_LEGS, MOST_SLOTS};
use plan::{Plan, Refusal};

// Whether so many records of memory suffice for a leg book, whatever the plan.
pub fn memory_suffices(length: usize) -> bool
    ensures { result ≡ nat_le most_legs length }
{
    MOST_LEGS as usize <= length
}

// How many records are the leg.
fn count_of(records: &[LegRecord], leg: Leg) -> usize
    ensures { result ≡ count_at records.now leg.segment leg.entry }
{
    records
        .iter()
        .filter(|record| record.leg == Some(leg))
        .count()
}

impl<'a> LegBook<'a> {
    // A book in which no leg stands. It puts the records that it uses out of use and leaves the rest of the memory.
    // Over too little memory it bars every leg, and leaves all of it.
    pub fn new(plan: &Plan, memory: &'a mut [LegRecord]) -> LegBook<'a>
        ensures meaning { legs_of result
            ≡ no_legs (plan_shown (content plan.now)) (nat_lt (length memory.old) most_legs) }
        ensures too_little { length memory.old < most_legs
            → result.records.now ≡ memory.old }
        ensures rest { drop most_legs result.records.now ≡ drop most_legs memory.old }
        ensures lent { result.records.ghost_name ≡ memory.entry.ghost_name }
    {
        if memory_suffices(memory.len()) {
            memory[..MOST_LEGS as usize].fill(LegRecord::unused());
        }
        LegBook {
            plan: ShownPlan::new(plan),
            count: 0,
            records: memory,
        }
    }

    // The records that the book uses, if there are as many as it needs.
    fn part(&self) -> Option<&[LegRecord]>
        ensures { MatchOption result (length self.now.records.now < most_legs)
            (λ part. (part.now ≡ part_used self.now.records.now) × (most_legs ≤ length self.now.records.now)) }
    {
        self.records.get(..MOST_LEGS as usize)
    }

    // How many legs of the segment enter at each slot.
    fn entering(&self, segment: u16) -> Option<[u8; MOST_SLOTS as usize]>
        ensures { MatchOption result (length self.now.records.now < most_legs)
            (λ table. (most_legs ≤ length self.now.records.now) × (length table ≡ most_slots)
            × ((e : ℕ) → e < most_slots
            → slice_index table e ≡ count_at (part_used self.now.records.now) segment e)) }
    {
        let part = self.part()?;
        // The table is as long as the longest horizon, as no heap is used.
        let mut table = [0u8; MOST_SLOTS as usize];
        for record in part {
            if let Some(leg) = record.leg {
                if leg.segment == segment {
                    table[leg.entry as usize] += 1;
                }
            }
        }
        Some(table)
    }

    // The first record that has the leg, or that is not in use.
    fn find(&self, leg: Option<Leg>) -> Option<usize>
        ensures { MatchOption result
            (most_legs ≤ length self.now.records.now → (k : ℕ) → k < most_legs
            → (slice_index_or (part_used self.now.records.now) k no_record).leg ≢ leg)
            (λ k. (k < most_legs) × (most_legs ≤ length self.now.records.now)
            × ((slice_index_or (part_used self.now.records.now) k no_record).leg ≡ leg)) }
    {
        self.part()?.iter().position(|record| record.leg == leg)
    }
}

impl<'a> Rows for LegBook<'a> {
    ghost meaning = { legs_of };

    ghost sound = { legs_sound };

    fn with_row<T, F: FnOnce(Row<'_>) -> T>(&self, segment: u16, ask: F) -> Option<T> {
        let (_, _, slots, limit) = self.segment(segment)?;
        let table = self.entering(segment)?;
        Some(ask(Row {
            entering: &table[..self.plan.sizes().horizon as usize],
            slots,
            limit,
        }))
    }
}

// What both bottom books answer alike stands in `ShownPlan` and `rows`, and is named here: one impl for all that have rows
// would leave none for layers.
impl<'a> Book for LegBook<'a> {
    ghost meaning = { legs_of };

    ghost sound = { legs_sound };

    fn sizes(&self) -> Sizes {
        self.plan.sizes()
    }

    fn segment(&self, segment: u16) -> Option<(u16, u16, u8, u8)> {
        self.plan.segment(segment)
    }

    fn standing(&self, leg: Leg) -> u16 {
        let sizes = self.sizes();
        if leg.segment >= sizes.segments || leg.entry >= sizes.horizon {
            return 0;
        }
        let Some(part) = self.part() else {
            return 0;
        };
        count_of(part, leg) as u16
    }

    fn total(&self) -> u16 {
        self.count
    }

    fn admissible(&self, leg: Leg) -> bool {
        self.admissible_held_back(leg, 0)
    }

    fn reserve(&mut self, leg: Leg) -> Result<(), Refusal> {
        if !self.admissible(leg) {
            return Err(Refusal::LegNotAdmissible);
        }
        // A full book is told by the count alone, without a pass over the records.
        if self.count >= MOST_LEGS {
            return Err(Refusal::LegsFull);
        }
        let place = self.find(None).ok_or(Refusal::LegsFull)?;
        self.records[place].leg = Some(leg);
        self.count += 1;
        Ok(())
    }

    fn free(&mut self, leg: Leg) -> Result<(), Refusal> {
        let place = self.find(Some(leg)).ok_or(Refusal::LegNotStanding)?;
        self.records[place].leg = None;
        self.count -= 1;
        Ok(())
    }

    fn load(&self, segment: u16, slot: u16) -> u32 {
        rows::load(self, segment, slot)
    }

    fn admissible_held_back(&self, leg: Leg, held: u8) -> bool {
        rows::admissible_held_back(self, leg, held)
    }

    fn next_entry_held_back(&self, segment: u16, from: u16, held: u8) -> Option<u16> {
        rows::next_entry_held_back(self, segment, from, held)
    }
}
