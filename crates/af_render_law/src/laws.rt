//! What holds of every render of an accepted script.
ghost use Rattle.std.specs.Prelude.{List};
ghost use Rattle.af_base.specs.declared.frame.Frame.{Frame};
ghost use Rattle.af_model.specs.Journals.{JournalData};
ghost use Rattle.af_script.specs.Data.{ScriptData};
ghost use Rattle.af_session.specs.Ends.{EndsState};
ghost use Rattle.af_render_law.specs.RenderLaws.{RendersAreToldAlone};

/// The journal that a render hands back is by itself a turn run of that script and of its files: each event sees what all events before it left. The summary is that of the journal alone, and the lists that the ends keep are those of the run that it tells.
pub fn a_render_is_told_by_its_journal()
    ensures { (script : ScriptData) (files : List (List Frame)) (j : JournalData) (ends : EndsState) → RendersAreToldAlone script files j ends }
{}
