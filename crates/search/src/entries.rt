// When a segment can be entered next.
ghost use Rattle.book.specs.Entries.{NextEntry};

use book::Book;

// The smallest admissible entry of the segment from the slot `from` on.
pub fn next_entry<B: Book>(book: &B, segment: u16, from: u16) -> Option<u16>
    ensures { NextEntry (B.Book.meaning book.now) segment from result }
{
    book.next_entry_held_back(segment, from, 0)
}
