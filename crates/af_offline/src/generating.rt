//! What `generate` draws and prints: the files and the script of the session that a number gives.
ghost use Rattle.std.specs.Prelude.{◌≡◌, ◌<◌, ◌^◌, Ok, Some, IfOk, OnOk, OnErr};
ghost use Rattle.af_io.specs.Causes.{HasCause};
ghost use Rattle.af_io.specs.Files.{SetsFile, LeavesFront};
ghost use Rattle.af_io.specs.Outputs.{SetsFiles, LeavesFronts};
ghost use Rattle.af_script.specs.Generated.{generated_script};
ghost use Rattle.af_script.specs.Printing.{printed_script};
ghost use Rattle.af_script.specs.Reading.{script_of};
ghost use Rattle.af_offline.specs.Generated.{next_draw, drawn, sample_of, drawn_bytes, drawn_files, generated_files};

use crate::outputs::write_file;
use af_base::Memory;
use af_io::{Store, StoreError};
use af_script::{GENERATED_FRAMES, GENERATED_TRACKS, Script, generated_name, generated_script};
use std::alloc::Global;

/// The state after one draw.
#[tactic(auto, unfolding(crate::specs::Generated::next_draw))]
fn next_draw(x: u32) -> u32
    requires { x < 2 ^ 31 }
    ensures draw { result ≡ next_draw x }
    ensures bound { result < 2 ^ 31 }
{
    ((u64::from(x) * 1103515245 + 12345) % 2147483648) as u32
}

/// The sample of a state, from -8192 to 8191.
#[tactic(auto, unfolding(crate::specs::Generated::sample_of))]
fn sample_of(x: u32) -> i16
    ensures { result ≡ sample_of x }
{
    (x / 256 % 16384) as i16 - 8192
}

/// What was drawn: the bytes of the samples, and the state behind them.
#[derive(Drop)]
struct Drawn {
    bytes: Vec<u8>,
    state: u32,
}

/// Draws so many samples.
#[tactic(auto, using(crate::proofs::Draws::drawn_next, crate::proofs::Draws::drawn_bytes_next, crate::proofs::Draws::drawn_none, crate::proofs::Draws::drawn_bytes_none))]
fn draw(alloc: Global, from: u32, count: u32) -> Result<Drawn, Memory>
    requires { from < 2 ^ 31 }
    ensures bytes { IfOk result (λ d. d.bytes.items ≡ drawn_bytes from count) }
    ensures state { IfOk result (λ d. d.state ≡ drawn from count) }
    ensures bound { IfOk result (λ d. d.state < 2 ^ 31) }
{
    let mut bytes = Vec::with_capacity(alloc, 2 * count as usize)?;
    let mut state = from;
    for _draw in 0..count {
        state = next_draw(state);
        bytes.extend_from_slice(&sample_of(state).to_le_bytes())?;
    }
    Ok(Drawn { bytes, state })
}

/// Writes the files of all tracks, in order.
fn write_drawn<S: Store>(alloc: Global, store: &mut S, number: u32) -> Result<(), StoreError>
    requires { number < 2 ^ 31 }
    ensures written { S.told store.old → OnOk result (SetsFiles (S.files store.old) (drawn_files number 8) (S.files store.new)) }
    ensures left { S.told store.old → OnErr result (LeavesFronts (S.files store.old) (drawn_files number 8) (S.files store.new)) }
    ensures tells { S.told store.old → S.told store.new }
    ensures cause { HasCause (S.faults store.old) (S.faults store.new) result }
{
    let mut state = number;
    for track in 0..GENERATED_TRACKS {
        let drawn = draw(alloc, state, GENERATED_FRAMES * (1 + track % 2))?;
        write_file(store, generated_name(track), &drawn.bytes)?;
        state = drawn.state;
    }
    Ok(())
}

/// Writes the text of a script, which `read` reads as the same script.
fn write_script<S: Store>(
    alloc: Global,
    store: &mut S,
    name: &str,
    script: &Script,
) -> Result<(), StoreError>
    ensures written { S.told store.old → OnOk result (SetsFile (S.files store.old) name.now (Some (printed_script script.now)) (S.files store.new)) }
    ensures left { S.told store.old → OnErr result (LeavesFront (S.files store.old) name.now (printed_script script.now) (S.files store.new)) }
    ensures reads { script_of (printed_script script.now) ≡ Ok script.now }
    ensures tells { S.told store.old → S.told store.new }
    ensures cause { HasCause (S.faults store.old) (S.faults store.new) result }
{
    let mut text = Vec::new(alloc);
    af_script::print(alloc, script, &mut text)?;
    write_file(store, name, &text)
}

/// Writes the files of a number's session, then its script into a file of this name, and answers the script.
pub fn write_session<S: Store>(
    alloc: Global,
    store: &mut S,
    number: u32,
    name: &str,
) -> Result<Script, StoreError>
    requires { number < 2 ^ 31 }
    ensures script { IfOk result (λ script. script ≡ generated_script) }
    ensures written { S.told store.old → OnOk result (SetsFiles (S.files store.old) (generated_files number name.now) (S.files store.new)) }
    ensures left { S.told store.old → OnErr result (LeavesFronts (S.files store.old) (generated_files number name.now) (S.files store.new)) }
    ensures reads { OnOk result (script_of (printed_script generated_script) ≡ Ok generated_script) }
    ensures tells { S.told store.old → S.told store.new }
    ensures cause { HasCause (S.faults store.old) (S.faults store.new) result }
{
    write_drawn(alloc, store, number)?;
    let script = generated_script(alloc)?;
    write_script(alloc, store, name, &script)?;
    Ok(script)
}
