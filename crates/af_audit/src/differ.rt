//! The first place at which two lists of bytes differ.
ghost use Rattle.std.specs.Prelude.{◌≡◌, ◌≤◌, length, take, true, MatchOption};
ghost use Rattle.af_audit.specs.Verdicts.{FirstDiffer};

// Whether as many bytes are the same. The compiler looks at sixteen at once.
fn are_same(a: &[u8], b: &[u8]) -> bool
    requires { length a.now ≡ length b.now }
    ensures { result ≡ true → a.now ≡ b.now }
{
    let mut same = true;
    for i in 0..a.len() {
        same &= a[i] == b[i];
    }
    same
}

// The place up to which two lists are the same, block by block.
fn same_blocks(a: &[u8], b: &[u8]) -> usize
    ensures inside { (result ≤ length a.now) × (result ≤ length b.now) }
    ensures same { take result a.now ≡ take result b.now }
{
    let shorter = a.len().min(b.len());
    let mut at = 0usize;
    'blocks: while shorter - at >= 64 && are_same(&a[at..at + 64], &b[at..at + 64]) {
        at += 64;
    }
    at
}

/// The first place at which two lists of bytes differ, or at which the shorter one ends; None if they are the same.
pub(crate) fn first_differ(a: &[u8], b: &[u8]) -> Option<usize>
    ensures { MatchOption result (b.now ≡ a.now) (FirstDiffer a.now b.now) }
{
    let shorter = a.len().min(b.len());
    let same = same_blocks(a, b);
    for i in same..shorter {
        if a[i] != b[i] {
            return Some(i);
        }
    }
    if a.len() == b.len() {
        return None;
    }
    Some(shorter)
}
