// What follows of the grammar alone. The work is in the contract: the function only carries it.
ghost use Rattle.call_lines.specs.Laws.{OneCall, SpelledShort, SpellingSpells};

pub fn laws_stand()
    ensures one_call { OneCall }
    ensures short { SpelledShort }
    ensures spelling { SpellingSpells }
{}
