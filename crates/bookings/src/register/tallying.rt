// How many bookings there have been.
ghost use Rattle.std.specs.Prelude.{◌≡◌, ◌+◌};
ghost use Rattle.bookings.specs.Registers.{tally_of};

use super::Register;
use crate::states::Tally;

impl Register {
    pub fn tally(&self) -> Tally
        ensures value { result ≡ tally_of self.now }
        ensures sum { result.granted ≡ result.standing + result.withdrawn + result.arrived }
    {
        Tally {
            granted: self.last,
            standing: self.bookings.len() as u16,
            withdrawn: self.withdrawn,
            arrived: self.arrived,
        }
    }
}
