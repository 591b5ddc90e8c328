// What follows for every book, and worked entries. The work is in the contracts: the functions only carry them.
ghost use Rattle.book.specs.Examples.{WorkedEntries};
ghost use Rattle.book.specs.Laws.{FreedGivesBack, OtherLoadsStay, OthersStayAdmissible, TotalCounts, WithinStays};

pub fn laws_stand()
    ensures other_loads { OtherLoadsStay }
    ensures other_legs { OthersStayAdmissible }
    ensures freed { FreedGivesBack }
    ensures within { WithinStays }
    ensures total { TotalCounts }
{}

pub fn worked_entries_stand()
    ensures { WorkedEntries }
{}
