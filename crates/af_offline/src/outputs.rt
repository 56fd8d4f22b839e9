//! What a command makes is written to its output.
ghost use Rattle.std.specs.Prelude.{◌≡◌, Some, IfOk, OnOk, OnErr};
ghost use Rattle.af_io.specs.Causes.{HasCause};
ghost use Rattle.af_io.specs.Files.{SetsFile, LeavesFront};

use af_io::{Store, StoreError};

/// What a command makes: the bytes of its output, and the line that it prints.
#[derive(Drop)]
pub struct Output {
    pub bytes: Vec<u8>,
    pub line: String,
}

/// Makes a file anew, with these bytes as one piece.
pub fn write_file<S: Store>(store: &mut S, name: &str, bytes: &[u8]) -> Result<(), StoreError>
    ensures written { S.told store.old → OnOk result (SetsFile (S.files store.old) name.now (Some bytes.now) (S.files store.new)) }
    // After an error the file is as before, or holds a front of these bytes.
    ensures left { S.told store.old → OnErr result (LeavesFront (S.files store.old) name.now bytes.now (S.files store.new)) }
    ensures tells { S.told store.old → S.told store.new }
    ensures cause { HasCause (S.faults store.old) (S.faults store.new) result }
{
    store.create(name)?;
    store.append(name, bytes)?;
    Ok(())
}

/// Makes the output anew, and answers the line.
pub fn deliver<S: Store>(store: &mut S, target: &str, output: Output) -> Result<String, StoreError>
    ensures line { IfOk result (λ line. line ≡ output.line) }
    ensures written { S.told store.old → OnOk result (SetsFile (S.files store.old) target.now (Some output.bytes.items) (S.files store.new)) }
    ensures left { S.told store.old → OnErr result (LeavesFront (S.files store.old) target.now output.bytes.items (S.files store.new)) }
    ensures cause { HasCause (S.faults store.old) (S.faults store.new) result }
{
    write_file(store, target, &output.bytes)?;
    Ok(output.line)
}
