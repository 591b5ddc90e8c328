// All legs of a route, reserved in a book and freed again.
ghost use Rattle.std.specs.Prelude.{◌≡◌};
ghost use Rattle.book.specs.Meaning.{Meaning};
ghost use Rattle.bookings.specs.Owed.{more};
ghost use Rattle.bookings.specs.Reserving.{Reservable};

use book::{Book, Leg};

// Two functions, since what holds where each serves is not alike: one wants room for all legs, the other their presence.
// Where the legs are all admissible, on different segments, and the book has room for them, all of them are reserved.
pub fn reserve_all<B: Book>(book: &mut B, legs: &[Leg])
    ensures { Reservable (B.Book.meaning book.old) legs.now
        → B.Book.meaning book.new ≡ more (B.Book.meaning book.old) legs.now }
{
    for leg in legs {
        // A refusal is let go: the contract says where there is none.
        let _ = book.reserve(*leg);
    }
}

// Where the legs stand, over whatever else, all of them are freed and the rest is left.
pub fn free_all<B: Book>(book: &mut B, legs: &[Leg])
    ensures { (rest : Meaning) → B.Book.meaning book.old ≡ more rest legs.now
        → B.Book.meaning book.new ≡ rest }
{
    for leg in legs {
        let _ = book.free(*leg);
    }
}
