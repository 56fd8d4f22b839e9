//! What the entry of a turn tells.
ghost use Rattle.af_base.specs.Turn.{Turn};
ghost use Rattle.af_entry_law.specs.Told.{EntryTellsAll};
ghost use Rattle.af_life.specs.Kept.{NormalKept, Outside, Setup};

/// Of two mixers of which entries told the same so far, each of which makes a turn that is legal by what it saw itself, one entry leaves what tells the same of both, and the same draft.
pub fn an_entry_tells_what_a_turn_leaves()
    ensures { (c : Setup) (o o' : Outside) (m m' : NormalKept) (e : Turn) → EntryTellsAll c o o' m m' e }
{}
