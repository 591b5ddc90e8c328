// The earliest slot at which each junction is reached, by labels in a queue.
ghost use Rattle.std.specs.Prelude.{◌≡◌, ℕ, ◌+◌, ◌<◌, ◌≤◌, ◌≢◌, length};
ghost use Rattle.book.specs.Meaning.{horizon, segments};
ghost use Rattle.queue.specs.Queue.{HeapOrder, held, room};
ghost use Rattle.walks.specs.Labels.{label_before};
ghost use Rattle.walks.specs.Queues.{Keeps};
ghost use Rattle.walks.specs.Relaxed.{Relaxed};
ghost use Rattle.walks.specs.Searching.{Goes, Solved, Solves, Waits, outgoing};
ghost use Rattle.walks.specs.Walks.{from as start_of};
ghost use Rattle.search.specs.Arrivals.{best, settled};

use crate::arrivals::Arrivals;
use crate::entries::next_entry;
use book::Book;
use queue::Queue;
use walks::{Label, Request};

// A search over a book, and what it knows of the junctions. The book is lent with it, so a call by `&mut` says that it stays the
// same (`book`).
#[derive(Drop)]
pub(crate) struct Search<'a, B> {
    pub(crate) book: &'a B,
    pub(crate) arrivals: Arrivals,
}

impl<'a, B: Book> Search<'a, B> {
    // Finds the earliest slot of each junction for the request.
    pub(crate) fn run(book: &'a B, request: Request, scratch: &mut [Label]) -> Search<'a, B>
        requires known { request.origin < (B.Book.meaning book.now).shown.junctions }
        requires early { request.slot < horizon (B.Book.meaning book.now) }
        requires room { segments (B.Book.meaning book.now) + 1 ≤ length scratch.old }
        ensures solved { Solved (B.Book.meaning book.now) request.origin request.slot (best result.arrivals.junctions) }
        ensures book { result.book.now ≡ book.now }
    {
        let mut search = Search {
            book,
            arrivals: Arrivals::new(),
        };
        search.arrivals.reach(request.origin, request.slot);
        let mut queue = Queue::new(scratch);
        queue
            .put(Label {
                slot: request.slot,
                junction: request.origin,
            })
            .unwrap();
        search.settle_all(&mut queue);
        search
    }

    // Takes out the least label and settles its junction, unless it is settled already, until no label waits.
    fn settle_all(&mut self, queue: &mut Queue<Label>)
        requires heap { HeapOrder label_before queue.old }
        requires some { (o : ℕ) × (t : ℕ)
            × Waits (B.Book.meaning self.old.book.now) o t
            (best self.old.arrivals.junctions) (settled self.old.arrivals.junctions) (held queue.old) (room queue.old) }
        ensures solves { Solves (B.Book.meaning self.old.book.now)
            (best self.old.arrivals.junctions) (settled self.old.arrivals.junctions) (held queue.old) (room queue.old)
            (best self.new.arrivals.junctions) }
        ensures book { self.new.book ≡ self.old.book }
    {
        while let Some(label) = queue.take() {
            if !self.arrivals.is_settled(label.junction) {
                self.arrivals.mark_settled(label.junction);
                self.settle(label.junction, queue);
            }
        }
    }

    // Relaxes the segments that start at the junction.
    fn settle(&mut self, junction: u16, queue: &mut Queue<Label>)
        requires { length (held queue.old) + outgoing (B.Book.meaning self.old.book.now) junction 0 ≤ room queue.old }
        ensures goes { Goes (B.Book.meaning self.old.book.now) junction
            0 (best self.old.arrivals.junctions) (held queue.old)
            (segments (B.Book.meaning self.old.book.now)) (best self.new.arrivals.junctions) (held queue.new) }
        ensures keeps { Keeps queue.old queue.new }
        ensures settled { settled self.new.arrivals.junctions ≡ settled self.old.arrivals.junctions }
        ensures book { self.new.book ≡ self.old.book }
    {
        for segment in 0..self.book.sizes().segments {
            self.relax(junction, segment, queue);
        }
    }

    // Relaxes the segment if it starts at the junction: where its next entry brings its end a better slot, that goes into
    // the arrivals, and a label into the queue.
    fn relax(&mut self, junction: u16, segment: u16, queue: &mut Queue<Label>)
        requires known { segment < segments (B.Book.meaning self.old.book.now) }
        requires room { start_of (B.Book.meaning self.old.book.now) segment ≡ junction
            → length (held queue.old) < room queue.old }
        ensures here { start_of (B.Book.meaning self.old.book.now) segment ≡ junction
            → Relaxed (B.Book.meaning self.old.book.now) segment
            (best self.old.arrivals.junctions) (held queue.old) (best self.new.arrivals.junctions) (held queue.new) }
        ensures elsewhere { start_of (B.Book.meaning self.old.book.now) segment ≢ junction
            → (best self.new.arrivals.junctions ≡ best self.old.arrivals.junctions) × (queue.new ≡ queue.old) }
        ensures keeps { Keeps queue.old queue.new }
        ensures settled { settled self.new.arrivals.junctions ≡ settled self.old.arrivals.junctions }
        ensures book { self.new.book ≡ self.old.book }
    {
        let Some((start, end, slots, _)) = self.book.segment(segment) else {
            return;
        };
        if start != junction {
            return;
        }
        let Some(from) = self.arrivals.at(start) else {
            return;
        };
        let Some(entry) = next_entry(self.book, segment, from) else {
            return;
        };
        let slot = entry + slots as u16;
        if self.arrivals.is_reached_by(end, slot) {
            return;
        }
        self.arrivals.reach(end, slot);
        queue
            .put(Label {
                slot,
                junction: end,
            })
            .unwrap();
    }
}
