//! The newest-value cell, on one thread and on two.
ghost use Rattle.std.specs.Prelude.{◌≡◌, ◌<◌};

use af_base::{Memory, Steps};
use af_latest::{Latest, Reader, Writer, latest, meet_latest};
use std::alloc::Global;
use std::marker::Brand;
use std::mem::drop;
use std::sync::ledger::{Blank, Ledger};
use std::test::Fail;
use std::thread;

fn loads_in_turn<L: Ledger>(alloc: Global, blank: Blank) -> Result<[u32; 4], Memory>
    requires name { blank.name ≡ L.name }
    requires parts { (blank.parts ≡ L.parts) × (0 < blank.parts) }
{
    let (cell, mut writer, mut reader) = latest(alloc, 0u32)?;
    let mut steps = Steps::<L>::start(blank);
    let first = reader.load(&cell, &mut steps);
    writer.store(&cell, &1, &mut steps);
    writer.store(&cell, &2, &mut steps);
    let second = reader.load(&cell, &mut steps);
    let third = reader.load(&cell, &mut steps);
    writer.store(&cell, &3, &mut steps);
    meet_latest(&cell, &mut writer, &mut reader, &mut steps);
    let last = reader.load(&cell, &mut steps);
    drop(reader);
    drop(writer);
    drop(cell);
    Ok([first, second, third, last])
}

#[test]
fn a_load_shows_the_last_store(rt: HostRuntime) {
    let found = loads_in_turn::<Brand>(rt.alloc(), Blank::new(1));
    assert!(rt; found == Ok([0, 2, 2, 3]));
}

fn store_by<L: Ledger>(cell: &Latest<u64>, writer: &mut Writer<u64>, blank: Blank)
    requires name { blank.name ≡ L.name }
    requires parts { (blank.parts ≡ L.parts) × (0 < blank.parts) }
    requires together { writer.old.cell ≡ cell.now }
{
    let mut steps = Steps::<L>::start(blank);
    for i in 1..1001u64 {
        writer.store(cell, &i, &mut steps);
    }
}

fn store_all(cell: &Latest<u64>, mut writer: Writer<u64>)
    requires together { writer.cell ≡ cell.now }
{
    store_by::<Brand>(cell, &mut writer, Blank::new(1));
    drop(writer);
}

// Whether a number was loaded that is below the one before.
fn load_by<L: Ledger>(cell: &Latest<u64>, reader: &mut Reader<u64>, blank: Blank) -> bool
    requires name { blank.name ≡ L.name }
    requires parts { (blank.parts ≡ L.parts) × (0 < blank.parts) }
    requires together { reader.old.cell ≡ cell.now }
{
    let mut steps = Steps::<L>::start(blank);
    let mut last = 0;
    let mut falls = false;
    for _ in 0..1_000_000u32 {
        let found = reader.load(cell, &mut steps);
        falls = falls || found < last;
        last = found;
        if last == 1000 {
            break;
        }
        thread::yield_now();
    }
    falls
}

fn load_all(cell: &Latest<u64>, mut reader: Reader<u64>) -> bool
    requires together { reader.cell ≡ cell.now }
{
    let falls = load_by::<Brand>(cell, &mut reader, Blank::new(1));
    drop(reader);
    falls
}

#[test]
fn numbers_never_fall(rt: HostRuntime) -> Result<(), Fail> {
    let Ok((cell, writer, reader)) = latest(rt.alloc(), 0u64) else {
        return Err(Fail::new("no memory"));
    };
    let cell = &cell;
    let (_, falls) = thread::join(
        &rt,
        move ||
            requires { writer.cell ≡ cell.now }
        { store_all(cell, writer) },
        move || -> bool
            requires { reader.cell ≡ cell.now }
        { load_all(cell, reader) },
    );
    assert!(rt; !falls);
    Ok(())
}
