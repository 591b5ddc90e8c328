// A new controller.
ghost use Rattle.std.specs.Prelude.{◌≡◌, MatchResult};
ghost use Rattle.bookings.specs.Registers.{Begins};

use super::Controller;
use book::Book;
use bookings::Register;
use std::alloc::Global;

impl<B: Book> Controller<B> {
    // All the memory that it ever needs is taken here. Where there is none, the book comes back.
    pub fn new(heap: Global, book: B) -> Result<Controller<B>, B>
        ensures { MatchResult result (λ c. (c.book ≡ book) × Begins c.register) (λ b. b ≡ book) }
    {
        match Register::new(heap) {
            Ok(register) => Ok(Controller { book, register }),
            Err(_) => Err(book),
        }
    }
}
