//! What the tests share: words, a store and a sink in memory, and the script of a play.
use af_io::{MemSink, MemStore};
use std::alloc::Global;
use std::test::Fail;

/// One track that plays two frames to their end, with more cycles than it can take.
pub(crate) const WHOLE: &str =
    "version = 1\nframes = 2\nnormal = 1\ncycles = 2000\n[[track]]\nkind = \"fast\"\nframes = 8\nchannels = 2\nfile = \"in.pcm\"\nops = [\"open\", \"start\", \"write 2\", \"stop\", \"drain\", \"remove\"]\n";

/// Words that are separated by spaces.
pub(crate) fn words_of(alloc: Global, line: &str) -> Result<Vec<String>, Fail> {
    let mut words = Vec::new(alloc);
    for word in line.split_whitespace() {
        words.push(String::from_str(alloc, word)?)?;
    }
    Ok(words)
}

/// A sink that never fails.
pub(crate) fn sink(alloc: Global) -> MemSink {
    MemSink::new(alloc, Vec::new(alloc))
}

/// The bytes that aren't zero.
pub(crate) fn loud(alloc: Global, bytes: &[u8]) -> Result<Vec<u8>, Fail> {
    let mut found = Vec::new(alloc);
    for byte in bytes {
        if *byte != 0 {
            found.push(*byte)?;
        }
    }
    Ok(found)
}

/// A list of one number, or of none if it is 0.
fn only(alloc: Global, number: u64) -> Result<Vec<u64>, Fail> {
    let mut numbers = Vec::new(alloc);
    if number > 0 {
        numbers.push(number)?;
    }
    Ok(numbers)
}

/// A store with a script and a file of so many bytes, of which a call fails by its number (0: none).
pub(crate) fn given(
    alloc: Global,
    failing: u64,
    script: &str,
    length: usize,
) -> Result<MemStore, Fail> {
    let file = numbered(alloc, length)?;
    let mut store = MemStore::new(alloc, only(alloc, failing)?);
    store.put("one.toml", script.as_bytes())?;
    store.put("in.pcm", &file)?;
    Ok(store)
}

/// A sink of which a call fails by its number (0: none).
pub(crate) fn failing_sink(alloc: Global, failing: u64) -> Result<MemSink, Fail> {
    Ok(MemSink::new(alloc, only(alloc, failing)?))
}

/// So many bytes of stereo frames that are numbered from 1.
pub(crate) fn numbered(alloc: Global, length: usize) -> Result<Vec<u8>, Fail> {
    let mut bytes = Vec::new(alloc);
    for i in 0..length {
        let number = (i / 4 % 255) as u8 + 1;
        bytes.push(if i % 2 == 0 { number } else { 0 })?;
    }
    Ok(bytes)
}
