// What the grid book does.
ghost use Rattle.std.specs.Prelude.{◌≡◌, ◌+◌, ◌*◌, ◌<◌, ◌≤◌, false, length, drop, MatchOption, nat_le, nat_lt};
ghost use Rattle.plan.specs.Content.{content};
ghost use Rattle.book.proofs.Bottoms.{Keeps};
ghost use Rattle.book.specs.Bottom.{keeps_at, no_legs};
ghost use Rattle.book.specs.Meaning.{sizes_of};
ghost use Rattle.book.specs.Rows.{IsRow, NoRow};
ghost use Rattle.book.specs.Shown.{plan_shown};
ghost use Rattle.book.specs.ShownPlan.{shown_of};
ghost use Rattle.grid_book.specs.Grid.{bytes_of, suffices};
ghost use Rattle.grid_book.specs.GridBook.{grid_of, grid_sound};

use super::GridBook;
use book::rows::{Row, Rows};
use book::{Book, Leg, ShownPlan, Sizes, rows};
use plan::limits::MOST_LEGS;
use plan::{Plan, Refusal};

// How many bytes of memory a grid book of the plan needs.
pub fn grid_bytes(plan: &Plan) -> usize
    ensures { result ≡ bytes_of (plan_shown (content plan.now)) }
{
    plan.segment_count() as usize * plan.settings().horizon as usize
}

// Whether so many bytes of memory suffice for a grid book of the plan.
pub fn memory_suffices(plan: &Plan, length: usize) -> bool
    ensures { result ≡ nat_le (bytes_of (plan_shown (content plan.now))) length }
{
    grid_bytes(plan) <= length
}

impl<'a> GridBook<'a> {
    // A book in which no leg stands. It clears the bytes that it uses and leaves the rest of the memory. Over too
    // little memory it bars every leg, and leaves all of it.
    pub fn new(plan: &Plan, memory: &'a mut [u8]) -> GridBook<'a>
        ensures meaning { grid_of result ≡ no_legs (plan_shown (content plan.now))
            (nat_lt (length memory.old) (bytes_of (plan_shown (content plan.now)))) }
        ensures too_little { length memory.old < bytes_of (plan_shown (content plan.now))
            → result.cells.now ≡ memory.old }
        ensures rest { drop (bytes_of (plan_shown (content plan.now))) result.cells.now
            ≡ drop (bytes_of (plan_shown (content plan.now))) memory.old }
        ensures lent { result.cells.ghost_name ≡ memory.entry.ghost_name }
    {
        let bytes = grid_bytes(plan);
        if bytes <= memory.len() {
            memory[..bytes].fill(0);
        }
        GridBook {
            plan: ShownPlan::new(plan),
            count: 0,
            cells: memory,
        }
    }

    // Whether the memory suffices for a plan of these sizes. The sizes are asked for once and passed on, since the place
    // of a leg is what a search asks most.
    fn has_memory(&self, sizes: Sizes) -> bool
        requires { sizes ≡ sizes_of (grid_of self.now) }
        ensures { result ≡ suffices (shown_of self.now.plan) self.now.cells.now }
    {
        sizes.segments as usize * sizes.horizon as usize <= self.cells.len()
    }

    // Whether the memory suffices and the plan has the leg.
    fn keeps(&self, sizes: Sizes, leg: Leg) -> bool
        requires { sizes ≡ sizes_of (grid_of self.now) }
        ensures { result ≡ keeps_at (shown_of self.now.plan) (suffices (shown_of self.now.plan) self.now.cells.now)
            leg.segment leg.entry }
    {
        self.has_memory(sizes) && leg.segment < sizes.segments && leg.entry < sizes.horizon
    }

    // The place of the byte for the leg, if the book keeps it.
    fn place(&self, leg: Leg) -> Option<usize>
        ensures { MatchOption result
            (keeps_at (shown_of self.now.plan) (suffices (shown_of self.now.plan) self.now.cells.now)
            leg.segment leg.entry ≡ false)
            (λ place. (place < length self.now.cells.now)
            × (place ≡ leg.segment * self.now.plan.horizon + leg.entry)
            × Keeps (shown_of self.now.plan) (suffices (shown_of self.now.plan) self.now.cells.now)
            leg.segment leg.entry) }
    {
        let sizes = self.sizes();
        self.keeps(sizes, leg).then_some(
            leg.segment as usize * sizes.horizon as usize + leg.entry as usize,
        )
    }

    // The row of the segment is its bytes, slot after slot.
    fn row(&self, segment: u16) -> Option<Row<'_>>
        ensures { MatchOption result (NoRow (grid_of self.now) segment) (IsRow (grid_of self.now) segment) }
    {
        let (_, _, slots, limit) = self.segment(segment)?;
        let sizes = self.sizes();
        if !self.has_memory(sizes) {
            return None;
        }
        let horizon = sizes.horizon as usize;
        let first = segment as usize * horizon;
        let entering = &self.cells[first..first + horizon];
        Some(Row {
            entering,
            slots,
            limit,
        })
    }
}

impl<'a> Rows for GridBook<'a> {
    ghost meaning = { grid_of };

    ghost sound = { grid_sound };

    fn with_row<T, F: FnOnce(Row<'_>) -> T>(&self, segment: u16, ask: F) -> Option<T> {
        self.row(segment).map(ask)
    }
}

// What both bottom books answer alike stands in `ShownPlan` and `rows`, and is named here: one impl for all that have rows
// would leave none for layers.
impl<'a> Book for GridBook<'a> {
    ghost meaning = { grid_of };

    ghost sound = { grid_sound };

    fn sizes(&self) -> Sizes {
        self.plan.sizes()
    }

    fn segment(&self, segment: u16) -> Option<(u16, u16, u8, u8)> {
        self.plan.segment(segment)
    }

    fn standing(&self, leg: Leg) -> u16 {
        self.place(leg).map_or(0, |place| self.cells[place] as u16)
    }

    fn total(&self) -> u16 {
        self.count
    }

    fn admissible(&self, leg: Leg) -> bool {
        self.admissible_held_back(leg, 0)
    }

    fn reserve(&mut self, leg: Leg) -> Result<(), Refusal> {
        let place = self.place(leg).ok_or(Refusal::LegNotAdmissible)?;
        if !self.admissible(leg) {
            return Err(Refusal::LegNotAdmissible);
        }
        if self.count >= MOST_LEGS {
            return Err(Refusal::LegsFull);
        }
        self.cells[place] += 1;
        self.count += 1;
        Ok(())
    }

    fn free(&mut self, leg: Leg) -> Result<(), Refusal> {
        let place = self.place(leg).ok_or(Refusal::LegNotStanding)?;
        let left = self.cells[place]
            .checked_sub(1)
            .ok_or(Refusal::LegNotStanding)?;
        self.cells[place] = left;
        self.count -= 1;
        Ok(())
    }

    fn load(&self, segment: u16, slot: u16) -> u32 {
        rows::load(self, segment, slot)
    }

    fn admissible_held_back(&self, leg: Leg, held: u8) -> bool {
        rows::admissible_held_back(self, leg, held)
    }

    fn next_entry_held_back(&self, segment: u16, from: u16, held: u8) -> Option<u16> {
        rows::next_entry_held_back(self, segment, from, held)
    }
}
