// A layer that changes nothing, and leaves the questions that have a body to that body. It writes out the calls that it
// hands down, as every layer does.
use book::{Book, Leg, Sizes};
use plan::Refusal;

#[derive(Drop)]
pub struct Plain<B> {
    pub below: B,
}

impl<B: Book> Book for Plain<B> {
    ghost meaning = { λ l. B.Book.meaning l.below };

    ghost sound = { λ l. B.Book.sound l.below };

    fn sizes(&self) -> Sizes {
        self.below.sizes()
    }

    fn segment(&self, segment: u16) -> Option<(u16, u16, u8, u8)> {
        self.below.segment(segment)
    }

    fn standing(&self, leg: Leg) -> u16 {
        self.below.standing(leg)
    }

    fn total(&self) -> u16 {
        self.below.total()
    }

    fn admissible(&self, leg: Leg) -> bool {
        self.below.admissible(leg)
    }

    fn reserve(&mut self, leg: Leg) -> Result<(), Refusal> {
        self.below.reserve(leg)
    }

    fn free(&mut self, leg: Leg) -> Result<(), Refusal> {
        self.below.free(leg)
    }
}
