// The search for the route that a request is granted, over any book.
#![tactic(auto)]

mod arrivals;
mod earliest;
pub mod entries;
pub mod finding;
pub mod requests;
pub mod route;
mod tracing;

pub use entries::next_entry;
pub use finding::find_route;
pub use requests::check_request;
pub use route::Route;
pub use walks::{Label, Request};
