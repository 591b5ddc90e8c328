// A route: the legs that a search has found.
ghost use Rattle.std.specs.Prelude.{◌≡◌, ◌≤◌, length};
ghost use Rattle.plan.specs.Limits.{most_junctions};

use book::Leg;

mod building;
pub mod reading;

// The legs stand in their order from the place `first` on, since a route is found from its end backwards. What stands
// before them says nothing. No route has as many legs as a plan may have junctions.
// An `ArrayVec` is not `Copy`, and a route is copied into each booking; so the legs are an array with the place beside it.
#[derive(Clone, Copy)]
pub struct Route {
    pub(crate) legs: [Leg; 64],
    pub(crate) first: usize,
    ghost sized: { length legs ≡ most_junctions },
    ghost within: { first ≤ most_junctions },
}
