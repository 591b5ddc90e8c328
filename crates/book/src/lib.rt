// What a book of legs is, whatever it keeps them in.
#![tactic(auto)]

pub mod books;
pub mod laws;
pub mod legs;
pub mod numbers;
pub mod rooms;
pub mod rows;
pub mod shown;

pub use books::Book;
pub use legs::{Leg, Sizes};
pub use shown::ShownPlan;
