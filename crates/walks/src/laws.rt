// What holds of chosen routes in every sound book, whatever finds them. The work is in the contract: the function only
// carries it.
ghost use Rattle.walks.specs.Examples.{WorkedRoutes};
ghost use Rattle.walks.specs.Theorems.{
  ChosenEndsEarliest,
  ChosenExistsWhereAWalkDoes,
  ChosenIsAWalk,
  ChosenIsShort,
  ChosenIsUnique,
  ChosenVisitsNoJunctionTwice,
  ChosenUsesNoSegmentTwice,
};

pub fn routes_stand()
    ensures walks { ChosenIsAWalk }
    ensures earliest { ChosenEndsEarliest }
    ensures unique { ChosenIsUnique }
    ensures exists { ChosenExistsWhereAWalkDoes }
    ensures junctions { ChosenVisitsNoJunctionTwice }
    ensures segments { ChosenUsesNoSegmentTwice }
    ensures short { ChosenIsShort }
{}

// The first three routes of the worked example.
pub fn worked_routes_stand()
    ensures { WorkedRoutes }
{}
