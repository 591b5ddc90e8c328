// A controller: a book, and the register of the bookings that it has granted.
use bookings::Register;

pub mod acting;
pub mod asking;
pub mod beginning;
pub mod listing;
pub mod requesting;
pub mod taking_up;
pub mod timing;

#[derive(Drop)]
pub struct Controller<B> {
    book: B,
    register: Register,
}
