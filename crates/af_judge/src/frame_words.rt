//! The words of frames, of which the compiler makes many at once.
ghost use Rattle.std.specs.Prelude.{◌≡◌, ℕ, ◌++◌, List, length, map, true, OnOk};
ghost use Rattle.af_base.specs.Sample.{packed_word};

use af_base::{Frame, Memory};

// The words of sixteen frames.
fn sixteen_words(frames: &[Frame]) -> [u32; 16]
    requires { length frames.now ≡ 16 }
    ensures { result ≡ map packed_word frames.now }
{
    let mut words = [0; 16];
    for i in 0..16 {
        words[i] = frames[i].pack();
    }
    words
}

/// Adds the words of these frames. An `Err` may leave some of them added.
pub fn append(words: &mut Vec<u32>, frames: &[Frame]) -> Result<(), Memory>
    ensures words { OnOk result (words.new.items ≡ words.old.items ++ map packed_word frames.now) }
    ensures grows { (more : List ℕ) × (words.new.items ≡ words.old.items ++ more) }
{
    let rows = frames.len() / 16;
    for row in 0..rows {
        words.extend_from_slice(&sixteen_words(&frames[16 * row..16 * row + 16]))?;
    }
    for at in 16 * rows..frames.len() {
        words.push(frames[at].pack())?;
    }
    Ok(())
}

/// Whether these are the words of as many frames.
pub fn are_words(words: &[u32], frames: &[Frame]) -> bool
    requires { length words.now ≡ length frames.now }
    ensures { result ≡ true → words.now ≡ map packed_word frames.now }
{
    let mut same = true;
    for at in 0..frames.len() {
        same &= words[at] == frames[at].pack();
    }
    same
}
