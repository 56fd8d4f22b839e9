ghost use Rattle.std.specs.Prelude.{◌≡◌, length};
ghost use Rattle.af_static.specs.Loops.{is_valid, opening, shut_by};

/// What the client sets, as one value: its number, from 1, and the start, end and count of the loop. Before any, the number is 0.
#[derive(Clone, Copy, Debug, PartialEq, Eq)]
pub struct Setting {
    pub number: u64,
    pub start: u32,
    pub end: u32,
    pub count: u32,
}

/// The content of the cell before any setting was made.
pub(crate) fn opening_setting() -> Setting
    ensures { result ≡ opening }
{
    Setting {
        number: 0,
        start: 0,
        end: 0,
        count: 0,
    }
}

impl Setting {
    /// Whether a buffer of so many frames has what is set: its start, if there are no jumps, or else a loop of at least 16 frames.
    pub(crate) fn is_valid(self, size: usize) -> bool
        ensures { result ≡ is_valid size self }
    {
        let (start, end) = (self.start as usize, self.end as usize);
        if self.count == 0 {
            start <= size
        } else {
            start + 16 <= end && end <= size
        }
    }

    /// The three numbers, if they shut the player of a buffer of so many frames.
    pub(crate) fn shut_by(self, size: usize) -> Option<(u32, u32, u32)>
        ensures { result ≡ shut_by size self }
    {
        if self.is_valid(size) {
            None
        } else {
            Some((self.start, self.end, self.count))
        }
    }
}
