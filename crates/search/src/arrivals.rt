// What is known of the junctions while a search runs.
ghost use Rattle.std.specs.Prelude.{◌≡◌, ◌<◌, false, length, nat_le, replicate, slice_set, true};
ghost use Rattle.std.specs.List.{All};
ghost use Rattle.plan.specs.Limits.{most_junctions};
ghost use Rattle.walks.specs.Labels.{at, done, far};
ghost use Rattle.search.specs.Arrivals.{ReachedAt, best, near, settled as settled_of};

// The earliest slot of the walks to a junction that are known, if any is, and whether the junction is settled. An enum of
// the two would have the slot in two cases.
#[derive(Clone, Copy)]
struct Arrival {
    slot: Option<u16>,
    settled: bool,
}

// An arrival for each junction that a plan may have. A type for the numbers below that would be made anew at each call, from the
// `u16` of a book or a label. No slot is as late as the number that stands for `None` in contracts.
#[derive(Clone, Copy)]
pub(crate) struct Arrivals {
    junctions: [Arrival; 64],
    ghost sized: { length junctions ≡ most_junctions },
    ghost near: { All near junctions },
}

impl Arrivals {
    // No junction is reached, and none is settled.
    pub(crate) fn new() -> Arrivals
        ensures best { best result.junctions ≡ replicate most_junctions far }
        ensures settled { settled_of result.junctions ≡ replicate most_junctions false }
    {
        let none = Arrival {
            slot: None,
            settled: false,
        };
        Arrivals {
            junctions: [none; 64],
        }
    }

    // The slot at which the junction is reached.
    pub(crate) fn at(&self, junction: u16) -> Option<u16>
        requires { junction < most_junctions }
        ensures { ReachedAt (best self.now.junctions) junction result }
    {
        self.junctions[junction as usize].slot
    }

    // Whether the junction is reached by the slot.
    pub(crate) fn is_reached_by(&self, junction: u16, slot: u16) -> bool
        requires known { junction < most_junctions }
        requires near { slot < far }
        ensures { result ≡ nat_le (at (best self.now.junctions) junction) slot }
    {
        self.at(junction).is_some_and(|known| known <= slot)
    }

    // The junction is reached at the slot.
    pub(crate) fn reach(&mut self, junction: u16, slot: u16)
        requires known { junction < most_junctions }
        requires near { slot < far }
        ensures best { best self.new.junctions ≡ slice_set (best self.old.junctions) junction slot }
        ensures settled { settled_of self.new.junctions ≡ settled_of self.old.junctions }
    {
        self.junctions[junction as usize].slot = Some(slot);
    }

    pub(crate) fn is_settled(&self, junction: u16) -> bool
        requires { junction < most_junctions }
        ensures { result ≡ done (settled_of self.now.junctions) junction }
    {
        self.junctions[junction as usize].settled
    }

    pub(crate) fn mark_settled(&mut self, junction: u16)
        requires { junction < most_junctions }
        ensures best { best self.new.junctions ≡ best self.old.junctions }
        ensures settled { settled_of self.new.junctions ≡ slice_set (settled_of self.old.junctions) junction true }
    {
        self.junctions[junction as usize].settled = true;
    }
}
