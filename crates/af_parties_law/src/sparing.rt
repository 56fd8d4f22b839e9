//! What pokes may do: shut their own track, and no other.
ghost use Rattle.std.specs.Prelude.{Bool, List};
ghost use Rattle.af_base.specs.declared.frame.Frame.{Frame};
ghost use Rattle.af_model.specs.Journals.{JournalData};
ghost use Rattle.af_parties_law.specs.Sparing.{PlaysSpareOthers, RendersSpareOthers};
ghost use Rattle.af_script.specs.Data.{ScriptData};
ghost use Rattle.af_session.specs.Ends.{EndsState};

/// Whatever clients stored in their words, a render spares each track on whose blocks nothing was poked: no call of its client was answered Corrupt, and no look of either mixer at its blocks was Shut.
pub fn a_render_spares_what_nobody_poked()
    ensures { (script : ScriptData) (files : List (List Frame)) (journal : JournalData) (ends : EndsState) → RendersSpareOthers script files journal ends }
{}

/// Whatever clients stored in their words, a play spares each track on whose blocks nothing was poked, whether all parties have ended or not: no call of its client was answered Corrupt, and no look of the normal mixer at its blocks was Shut.
pub fn a_play_spares_what_nobody_poked()
    ensures { (ended : Bool) (script : ScriptData) (files : List (List Frame)) (journal : JournalData) (ends : EndsState) → PlaysSpareOthers ended script files journal ends }
{}
