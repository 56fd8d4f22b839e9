//! The command `render`: a script's session, played into a file.
ghost use Rattle.std.specs.Prelude.{◌≡◌, ◌≤◌, Ok, IfOk, string_bytes};
ghost use Rattle.af_offline.specs.Asked.{render_asked, session_job};
ghost use Rattle.af_commands.specs.Counted.{CountsOn};
ghost use Rattle.af_commands.specs.Ends.{Makes};
ghost use Rattle.af_offline.specs.Loading.{loaded_view, AreFilesFor};
ghost use Rattle.af_commands.specs.Sessions.{IsSomeSessionLine, summary_line};
ghost use Rattle.af_offline.specs.Status.{HasFault, IsNoUsage};
ghost use Rattle.af_commands.specs.Told.{TellsLine, TellsRender};
ghost use Rattle.af_script.specs.Form.{IsScript};

use af_io::{Store, StoreError};
use af_journal_laws::what_follows_of_turn_runs;
use af_offline::{Loaded, Stop, load_script};
use af_parties_law::a_render_spares_what_nobody_poked;
use af_rendering::Outcome;
use af_script::Script;
use af_tally::{Costs, Summary};
use std::alloc::{AllocError, Global};

/// The line of a summary.
pub fn summary_line(alloc: Global, summary: &Summary) -> Result<String, AllocError>
    ensures { IfOk result (λ line. string_bytes line ≡ summary_line summary.now) }
{
    format!(in alloc; "{summary}\n")
}

/// The line of a summary, as the answer of a command, which is stopped only if memory runs out.
pub(crate) fn line_of(alloc: Global, summary: &Summary) -> Result<String, Stop>
    ensures { TellsLine summary.now result }
{
    Ok(summary_line(alloc, summary)?)
}

/// The answer of a render: its line, or the stop of the store's error.
fn tell(alloc: Global, played: &Result<Outcome, StoreError>) -> Result<String, Stop>
    ensures { TellsRender played.now result }
{
    match played {
        Ok(outcome) => line_of(alloc, &outcome.summary),
        Err(error) => Err(Stop::from(*error)),
    }
}

/// What was read as a script keeps the rules of a script: its type says so.
pub(crate) fn is_accepted(script: &Script)
    ensures { IsScript script.now }
{
    let _version = script.version();
}

/// Plays what was loaded, and answers its line. `steps` gets the word steps of its cycles.
///
/// The journal behind the sound is by itself a turn run, in which each event sees what all before it left, and the line is that of its summary. If no op of the script is a poke, and each stream proxy takes part in its last meeting, it is the only such turn run of this script and these files.
pub fn play<S: Store>(
    alloc: Global,
    loaded: &Loaded,
    store: &mut S,
    target: &str,
    steps: &mut Costs,
) -> Result<String, Stop>
    requires { AreFilesFor loaded.now }
    ensures made { S.told store.old → Makes result (Ok (session_job target.now (loaded_view loaded.now))) (S.files store.old) (S.files store.new) }
    ensures line { IfOk result (λ line. IsSomeSessionLine (string_bytes line)) }
    ensures cause { HasFault (S.faults store.old) (S.faults store.new) result }
    ensures words { IsNoUsage result }
    ensures steps { S.told store.old → CountsOn result (Ok (session_job target.now (loaded_view loaded.now))) (S.files store.new) steps.new.items }
{
    is_accepted(&loaded.script);
    what_follows_of_turn_runs();
    a_render_spares_what_nobody_poked();
    let played = af_rendering::render(alloc, &loaded.script, &loaded.files, store, target, steps);
    let told = tell(alloc, &played);
    drop(played);
    told
}

/// Loads a script and the files of its tracks, plays it into the output, and answers its line.
pub fn render_script<S: Store>(
    alloc: Global,
    store: &mut S,
    script: &str,
    target: &str,
    steps: &mut Costs,
) -> Result<String, Stop>
    ensures made { S.told store.old → Makes result (render_asked (S.files store.old) script.now target.now) (S.files store.old) (S.files store.new) }
    ensures line { IfOk result (λ line. IsSomeSessionLine (string_bytes line)) }
    ensures cause { HasFault (S.faults store.old) (S.faults store.new) result }
    ensures words { IsNoUsage result }
    ensures steps { S.told store.old → CountsOn result (render_asked (S.files store.old) script.now target.now) (S.files store.new) steps.new.items }
{
    let loaded = load_script(alloc, store, script)?;
    play(alloc, &loaded, store, target, steps)
}
