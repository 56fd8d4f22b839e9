//! The command `generate`: the session that a number gives is written, and then played.
ghost use Rattle.std.specs.Prelude.{◌≡◌, ◌<◌, ◌^◌, false, Ok, IfOk, OnOk, string_bytes};
ghost use Rattle.af_script.specs.Generated.{generated_script};
ghost use Rattle.af_script.specs.Printing.{printed_script};
ghost use Rattle.af_script.specs.Reading.{script_of};
ghost use Rattle.af_words.specs.Requests.{is_drawn};
ghost use Rattle.af_offline.specs.Asked.{generated_job};
ghost use Rattle.af_offline.specs.Status.{HasFault, IsNoUsage};
ghost use Rattle.af_commands.specs.Counted.{CountsOn};
ghost use Rattle.af_commands.specs.Ends.{Makes};
ghost use Rattle.af_commands.specs.Sessions.{IsSomeSessionLine};

use crate::render::play;
use af_io::Store;
use af_offline::{Stop, load_files, write_session};
use af_tally::Costs;
use std::alloc::Global;

/// Writes the files and the script of a number's session, plays it into the output with the files as they are then, and answers its line.
pub fn generate<S: Store>(
    alloc: Global,
    store: &mut S,
    number: u32,
    script: &str,
    target: &str,
    steps: &mut Costs,
) -> Result<String, Stop>
    requires number { number < 2 ^ 31 }
    requires free { is_drawn script.now ≡ false }
    ensures made { S.told store.old → Makes result (Ok (generated_job number script.now target.now)) (S.files store.old) (S.files store.new) }
    // The script's file reads as the script that is played.
    ensures reads { OnOk result (script_of (printed_script generated_script) ≡ Ok generated_script) }
    ensures line { IfOk result (λ line. IsSomeSessionLine (string_bytes line)) }
    ensures cause { HasFault (S.faults store.old) (S.faults store.new) result }
    ensures words { IsNoUsage result }
    ensures steps { S.told store.old → CountsOn result (Ok (generated_job number script.now target.now)) (S.files store.new) steps.new.items }
{
    let made = write_session(alloc, store, number, script)?;
    let loaded = load_files(alloc, store, made)?;
    play(alloc, &loaded, store, target, steps)
}
