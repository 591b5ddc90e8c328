// What the definitions of travel slots and critical counts amount to. The work is in the contracts: these functions
// only carry them.
ghost use Rattle.plan.specs.Critical.{CriticalIsLargest};
ghost use Rattle.plan.specs.Examples.{WorkedValues};
ghost use Rattle.plan.specs.Travel.{TravelIsNearest};

pub fn formulas_stand()
    ensures travel { TravelIsNearest }
    ensures critical { CriticalIsLargest }
{}

pub fn worked_values_stand()
    ensures { WorkedValues }
{}
