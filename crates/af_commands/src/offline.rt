//! The commands that play no session: `record`, `loop` and `verify`.
ghost use Rattle.std.specs.Prelude.{◌≡◌, IfOk, string_bytes};
ghost use Rattle.af_words.specs.Asking.{AreSizes, AreLoopTurns};
ghost use Rattle.af_words.specs.Requests.{Verify};
ghost use Rattle.af_offline.specs.Asked.{loop_asked, record_asked, verify_asked};
ghost use Rattle.af_offline.specs.Line.{counts_text, legal_text, rolls_text};
ghost use Rattle.af_offline.specs.Looped.{Rolls};
ghost use Rattle.af_offline.specs.Recorded.{Counts};
ghost use Rattle.af_offline.specs.Status.{HasFault, IsNoUsage, SuitsRequest};
ghost use Rattle.af_commands.specs.Ends.{Makes};

use af_io::Store;
use af_offline::{Stop, deliver, judge, load_case, loop_output, record_output};
use af_words::{Sizes, Turns};
use std::alloc::Global;

/// Loads a file, writes its recording to the output, and answers its line.
pub fn record_file<S: Store>(
    alloc: Global,
    store: &mut S,
    input: &str,
    target: &str,
    sizes: Sizes,
) -> Result<String, Stop>
    requires { AreSizes sizes }
    ensures made { S.told store.old → Makes result (record_asked (S.files store.old) input.now target.now sizes) (S.files store.old) (S.files store.new) }
    ensures line { IfOk result (λ line. (counts : Counts) × (string_bytes line ≡ counts_text counts)) }
    ensures cause { HasFault (S.faults store.old) (S.faults store.new) result }
    ensures words { IsNoUsage result }
{
    let output = record_output(alloc, store, input, sizes)?;
    Ok(deliver(store, target, output)?)
}

/// Loads a file, writes what is heard of it in a loop to the output, and answers its line.
pub fn loop_file<S: Store>(
    alloc: Global,
    store: &mut S,
    input: &str,
    target: &str,
    turns: Turns,
) -> Result<String, Stop>
    requires { AreLoopTurns turns }
    ensures made { S.told store.old → Makes result (loop_asked (S.files store.old) input.now target.now turns) (S.files store.old) (S.files store.new) }
    ensures line { IfOk result (λ line. (rolls : Rolls) × (string_bytes line ≡ rolls_text rolls)) }
    ensures cause { HasFault (S.faults store.old) (S.faults store.new) result }
    ensures words { IsNoUsage result }
{
    let output = loop_output(alloc, store, input, turns)?;
    Ok(deliver(store, target, output)?)
}

/// Loads a script and the files of its tracks, a sound and the text of its journal, and judges them. No file changes.
pub fn verify_files<S: Store>(
    alloc: Global,
    store: &mut S,
    script: &str,
    sound: &str,
    journal: &str,
) -> Result<String, Stop>
    ensures made { S.told store.old → Makes result (verify_asked (S.files store.old) script.now sound.now journal.now) (S.files store.old) (S.files store.new) }
    ensures line { IfOk result (λ line. string_bytes line ≡ legal_text) }
    ensures cause { HasFault (S.faults store.old) (S.faults store.new) result }
    ensures words { SuitsRequest result (Verify script.now sound.now journal.now) }
{
    let case = load_case(alloc, store, script, sound, journal)?;
    judge(alloc, &case)
}
