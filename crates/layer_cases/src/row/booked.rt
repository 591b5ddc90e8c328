// What the row book does.
ghost use Rattle.std.specs.Prelude.{◌≡◌, ◌<◌, ◌≤◌, min, max, if◌then◌else◌};
ghost use Rattle.book.specs.Loads.{holds, load as load_in};
ghost use Rattle.book.specs.Rooms.{room_below};
ghost use Rattle.layer_cases.specs.RowBook.{row_of, row_sound};

use super::RowBook;
use book::{Book, Leg, Sizes};
use plan::Refusal;

impl RowBook {
    // Travel slots below 1 and above 64 are taken for 1 and 64.
    pub fn new(slots: u8, limit: u8) -> RowBook
        ensures slots { result.slots ≡ min 64 (max 1 slots) }
        ensures limit { result.limit ≡ limit }
        ensures none_stand { result.count ≡ 0 }
    {
        RowBook {
            slots: slots.max(1).min(64),
            limit,
            row: [0; 20],
            count: 0,
        }
    }

    // How many legs with this entry hold the slot.
    fn held_by(&self, start: u16, slot: u16) -> u32
        requires { start < 20 }
        ensures value { result ≡ (if holds start self.now.slots slot then (row_of self.now).standing 0 start else 0) }
        ensures bound { result < 65536 }
    {
        if start <= slot && (slot as u32) < start as u32 + self.slots as u32 {
            self.row[start as usize] as u32
        } else {
            0
        }
    }

    // The load of a slot.
    fn load(&self, slot: u16) -> u32
        ensures { result ≡ load_in (row_of self.now) 0 slot }
    {
        (0..20u16).map(|start| self.held_by(start, slot)).sum()
    }

    fn has_room(&self, leg: Leg) -> bool
        requires { (leg.segment ≡ 0) × (leg.entry ≤ 20) }
        ensures { result ≡ room_below (row_of self.now) leg self.now.limit self.now.slots }
    {
        (leg.entry..leg.entry + self.slots as u16).all(|slot| self.load(slot) < self.limit as u32)
    }
}

impl Book for RowBook {
    ghost meaning = { row_of };

    ghost sound = { row_sound };

    fn sizes(&self) -> Sizes {
        Sizes {
            horizon: 20,
            junctions: 2,
            segments: 1,
        }
    }

    fn segment(&self, segment: u16) -> Option<(u16, u16, u8, u8)> {
        if segment == 0 {
            Some((0, 1, self.slots, self.limit))
        } else {
            None
        }
    }

    fn standing(&self, leg: Leg) -> u16 {
        if leg.segment == 0 && leg.entry < 20 {
            self.row[leg.entry as usize]
        } else {
            0
        }
    }

    fn total(&self) -> u16 {
        self.count
    }

    fn admissible(&self, leg: Leg) -> bool {
        if leg.segment != 0 || leg.entry as u32 + self.slots as u32 > 20 {
            return false;
        }
        self.has_room(leg)
    }

    fn reserve(&mut self, leg: Leg) -> Result<(), Refusal> {
        if !self.admissible(leg) {
            return Err(Refusal::LegNotAdmissible);
        }
        if self.count >= 1024 {
            return Err(Refusal::LegsFull);
        }
        self.row[leg.entry as usize] += 1;
        self.count += 1;
        Ok(())
    }

    fn free(&mut self, leg: Leg) -> Result<(), Refusal> {
        if self.standing(leg) == 0 {
            return Err(Refusal::LegNotStanding);
        }
        self.row[leg.entry as usize] -= 1;
        self.count -= 1;
        Ok(())
    }
}
