// What a route tells.
ghost use Rattle.std.specs.Prelude.{◌≡◌};
ghost use Rattle.search.specs.Routes.{legs_of};

use super::Route;
use book::Leg;

impl Route {
    // Its legs, in their order.
    pub fn legs(&self) -> &[Leg]
        ensures { result.now ≡ legs_of self.now }
    {
        &self.legs[self.first..64]
    }
}
