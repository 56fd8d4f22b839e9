ghost use Rattle.std.specs.Prelude.{◌≡◌, ◌+◌, ◌<◌, ◌≤◌, true, nat_le, nat_lt, ◌&&◌, if◌then◌else◌};
ghost use Rattle.af_static.specs.Loops.{adopted, at_first, head_heard, is_valid, jumped, longest_row, moved, spent, IsRow, IsSound};

use crate::setting::Setting;

/// Where the next frame is taken, and the loop with its jumps that are left: with none left there is no loop.
#[derive(Clone, Copy, Debug, PartialEq, Eq)]
pub struct Head {
    pub position: usize,
    pub start: usize,
    pub end: usize,
    pub left: u32,
}

/// The head before any call.
pub(crate) fn first_head() -> Head
    ensures { result ≡ at_first }
{
    Head {
        position: 0,
        start: 0,
        end: 0,
        left: 0,
    }
}

/// Where a new loop begins: a position that lies in it is kept.
fn kept_in(setting: Setting, position: usize) -> usize
    ensures { result ≡ (if nat_le setting.start position && nat_lt position setting.end then position else setting.start) }
{
    if setting.start as usize <= position && position < setting.end as usize {
        position
    } else {
        setting.start as usize
    }
}

/// One jump is spent, unless the jumps have no end.
fn spent(left: u32) -> u32
    requires { 0 < left }
    ensures { result ≡ spent left }
{
    if left == u32::MAX { left } else { left - 1 }
}

impl Head {
    /// The head under a new setting that is valid.
    fn adopted(self, setting: Setting, size: usize) -> Head
        requires valid { is_valid size setting ≡ true }
        ensures head { result ≡ adopted setting self }
        ensures sound { IsSound size result }
    {
        if setting.count == 0 {
            Head {
                position: setting.start as usize,
                start: 0,
                end: 0,
                left: 0,
            }
        } else {
            Head {
                position: kept_in(setting, self.position),
                start: setting.start as usize,
                end: setting.end as usize,
                left: setting.count,
            }
        }
    }

    /// The head when a call has seen a setting: only a new one that is valid changes it.
    pub(crate) fn heard(self, last: Setting, setting: Setting, size: usize) -> Head
        requires { IsSound size self }
        ensures head { result ≡ head_heard size last self setting }
        ensures sound { IsSound size result }
    {
        if setting.is_valid(size) && setting.number != last.number {
            self.adopted(setting, size)
        } else {
            self
        }
    }

    /// How many frames come in a row: to the end of the loop, or else of the buffer, and no more than there are places.
    pub(crate) fn row(self, size: usize, places: usize) -> usize
        requires sound { IsSound size self }
        requires ahead { (self.position < size) × (0 < places) }
        ensures longest { result ≡ longest_row size self places }
        ensures row { IsRow size self result }
        ensures some { (0 < result) × (result ≤ places) }
    {
        let end = if self.left > 0 { self.end } else { size };
        places.min(end - self.position)
    }

    /// The head at the end of a row: it jumps from the end of a loop with jumps left.
    pub(crate) fn moved(self, run: usize, size: usize) -> Head
        requires sound { IsSound size self }
        requires row { IsRow size self run }
        ensures head { result ≡ moved self run }
        ensures sound { IsSound size result }
    {
        let position = self.position + run;
        if self.left > 0 && position == self.end {
            Head {
                position: self.start,
                left: spent(self.left),
                ..self
            }
        } else {
            Head { position, ..self }
        }
    }
}
