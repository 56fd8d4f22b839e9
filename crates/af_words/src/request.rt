//! What the words may ask for.

/// The sizes of a recording: for how many frames there is room, how many each supply has, and how many places each read.
#[derive(Clone, Copy, Debug, PartialEq, Eq)]
pub struct Sizes {
    pub room: u32,
    pub supply: u32,
    pub read: u32,
}

/// How a static buffer is looped: how many places each call has and how many calls there are, and the start, end and count of the loop.
#[derive(Clone, Copy, Debug, PartialEq, Eq)]
pub struct Turns {
    pub places: u32,
    pub calls: u32,
    pub start: u32,
    pub end: u32,
    pub count: u32,
}

/// One command and its words.
#[derive(Clone, Copy, Debug, PartialEq, Eq)]
pub enum Request<'a> {
    /// A script, and the output that it is rendered to.
    Render {
        script: &'a str,
        target: &'a str,
    },
    /// A file that is recorded, the output, and the sizes of the recording.
    Record {
        input: &'a str,
        target: &'a str,
        sizes: Sizes,
    },
    /// A file that is looped, the output, and the turns of the loop.
    Loop {
        input: &'a str,
        target: &'a str,
        turns: Turns,
    },
    /// The number of a session, the file of its script, and the output that it is played into.
    Generate {
        number: u32,
        script: &'a str,
        target: &'a str,
    },
    /// A script, the output that it is played to, and the file of its journal.
    Play {
        script: &'a str,
        target: &'a str,
        journal: &'a str,
    },
    /// A script, the sound and the journal that are judged by it.
    Verify {
        script: &'a str,
        sound: &'a str,
        journal: &'a str,
    },
    /// A script, the output that it is played to, the files of its journal and its log, and for how many notes the log has room.
    Trace {
        script: &'a str,
        target: &'a str,
        journal: &'a str,
        log: &'a str,
        room: u32,
    },
}
