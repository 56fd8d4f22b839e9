//! Whether a push answered as it may.
ghost use Rattle.std.specs.Prelude.{◌≡◌, ◌↔◌, ℕ, ◌<◌, ◌≤◌, ◌^◌, ◌||◌, IsTrue};
ghost use Rattle.af_model.specs.StateQueue.{word};
ghost use Rattle.af_life.specs.Edits.{LegalPush};
ghost use Rattle.af_life.specs.Kept.{NormalKept};
ghost use Rattle.af_judge.specs.NormalChanges.{is_edited};

use af_base::{FastState, Push};

// The word of a state.
fn word_of(number: u64) -> u32
    ensures { result ≡ word number }
{
    if number == 0 {
        0
    } else {
        ((number - 1) % 4) as u32 + 1
    }
}

/// Whether a push answered as it may, of a draft that is to be pushed or not, after so many states were pushed.
pub fn is_legal_push(push: Push, dirty: bool, pushed: u64) -> bool
    requires few { pushed < 2 ^ 62 }
    ensures { (m : NormalKept) → m.dirty ≡ dirty → m.pushed ≡ pushed → IsTrue result ↔ LegalPush m push }
{
    match push {
        Push::Clean => !dirty,
        Push::Pushed { number } => dirty && number == pushed + 1,
        Push::Busy { seen, expected } => {
            dirty && pushed > 0 && expected == word_of(pushed) && seen == word_of(pushed - 1)
        }
    }
}

// Whether a draft was edited since it was the other one.
fn is_edited(before: &FastState, after: &FastState) -> bool
    ensures { result ≡ is_edited before.now after.now }
{
    before.tracks_gen < after.tracks_gen || after.command.code() != before.command.code()
}

/// Whether a draft is to be pushed: it was to be before, or was edited since it was the other one.
pub fn is_to_push(dirty: bool, before: &FastState, after: &FastState) -> bool
    ensures { result ≡ (dirty || is_edited before.now after.now) }
{
    dirty || is_edited(before, after)
}
