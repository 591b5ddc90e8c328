// The chosen route, back from the destination.
ghost use Rattle.std.specs.Prelude.{◌≡◌, ◌<◌};
ghost use Rattle.walks.specs.Labels.{at, far};
ghost use Rattle.walks.specs.Searching.{Solved};
ghost use Rattle.walks.specs.Walks.{Chosen};
ghost use Rattle.search.specs.Arrivals.{best};
ghost use Rattle.search.specs.Routes.{legs_of};
ghost use Rattle.search.specs.Steps.{StepBack, StepOver};

use crate::earliest::Search;
use crate::route::Route;
use book::{Book, Leg};
use walks::Request;

// A leg, and the junction where it starts.
#[derive(Clone, Copy)]
pub(crate) struct Step {
    leg: Leg,
    start: u16,
}

impl<'a, B: Book> Search<'a, B> {
    // The chosen route of the request, whose destination can be reached.
    pub(crate) fn trace_back(&self, request: Request) -> Route
        requires solved { Solved (B.Book.meaning self.now.book.now) request.origin request.slot
            (best self.now.arrivals.junctions) }
        requires origin_known { request.origin < (B.Book.meaning self.now.book.now).shown.junctions }
        requires known { request.destination < (B.Book.meaning self.now.book.now).shown.junctions }
        requires reached { at (best self.now.arrivals.junctions) request.destination < far }
        ensures { Chosen (B.Book.meaning self.now.book.now) request.origin request.slot request.destination
            (legs_of result) }
    {
        let mut route = Route::empty();
        let mut junction = request.destination;
        while junction != request.origin {
            let step = self.step_back(junction).unwrap();
            route.put_first(step.leg);
            junction = step.start;
        }
        route
    }

    // The step back from the junction by the tie rule: over the lowest-numbered segment that can be the last one into it.
    fn step_back(&self, junction: u16) -> Option<Step>
        requires { junction < (B.Book.meaning self.now.book.now).shown.junctions }
        ensures { StepBack (B.Book.meaning self.now.book.now) (best self.now.arrivals.junctions) junction result }
    {
        (0..self.book.sizes().segments).find_map(|segment| self.step_over(junction, segment))
    }

    // The step back from the junction over the segment, if that can be the last one into it.
    fn step_over(&self, junction: u16, segment: u16) -> Option<Step>
        requires { junction < (B.Book.meaning self.now.book.now).shown.junctions }
        ensures { StepOver (B.Book.meaning self.now.book.now) (best self.now.arrivals.junctions) junction segment result }
    {
        let (start, end, slots, _) = self.book.segment(segment)?;
        if end != junction {
            return None;
        }
        let entry = self.arrivals.at(junction)?.checked_sub(slots as u16)?;
        if !self.arrivals.is_reached_by(start, entry) {
            return None;
        }
        let leg = Leg { segment, entry };
        self.book.admissible(leg).then_some(Step { leg, start })
    }
}
