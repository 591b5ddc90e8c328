// The list of a shift.
ghost use Rattle.bookings.specs.Steps.{listed};
ghost use Rattle.controller.specs.Events.{Collected, ListsShift, events_of};

use super::Controller;
use crate::events::Event;
use book::Book;
use queue_client::sort;

impl<B: Book> Controller<B> {
    // Lists the departures and ends of the bookings that stand in ascending order: by slot, at one slot ends before
    // departures, then by number. They take the first places of `shift`, as many as the answer says.
    pub fn list_shift(&self, shift: &mut [Event; 128]) -> usize
        ensures { ListsShift
            (events_of (B.Book.meaning self.now.book) (listed self.now.register))
            shift.old shift.new result }
    {
        let count = self.collect_events(shift);
        let mut scratch = *shift;
        let _ = sort(&mut shift[0..count], &mut scratch[0..count]);
        count
    }

    // Puts the events into the first places of `shift`, in the order of the bookings. It counts them: that a record of 128 is
    // filled and their count answered is a fixed form.
    fn collect_events(&self, shift: &mut [Event; 128]) -> usize
        ensures { Collected
            (events_of (B.Book.meaning self.now.book) (listed self.now.register))
            shift.old shift.new result }
    {
        let mut count = 0;
        for booking in self.register.bookings() {
            if let Some(timing) = self.timing(booking.route) {
                shift[count..count + 2].copy_from_slice(&timing.events(booking.number));
                count += 2;
            }
        }
        count
    }
}
