//! Flushes and short writes of a client, as its calls, turns and what the fast mixer then plays. A block of a stream has a flush that drops what was released when it is seen, or, if it carries its position, what was released before it.
ghost use Rattle.std.specs.Prelude.{◌≡◌, true, IfOk};
ghost use Rattle.af_cblk.specs.Rule.{new_client, new_server};
ghost use Rattle.af_cblk.specs.Sides.{client_made, server_made};

use crate::rows::{MIXES, PUSH_1, Row};
use crate::table_tests::{Case, FAST, Kind, NORMAL, first_wrong};
use af_base::{Memory, Push, Seen};
use af_cblk::{Block, ClientPass, ServerPass};
use af_life::{FLUSH, OPEN, START};
use std::alloc::Global;
use std::test::*;

/// A new block of some frames, whose flushes may carry their position.
pub(crate) fn new_block(
    alloc: Global,
    frames: u32,
    positional: bool,
) -> Result<(Block, ClientPass, ServerPass), Memory>
    ensures made { IfOk result (λ r. (client_made r.1 ≡ r.0) × (server_made r.2 ≡ r.0)) }
    ensures new { IfOk result (λ r. (r.1.part ≡ new_client r.0.shape) × (r.2.part ≡ new_server r.0.shape) × (r.2.has_hand ≡ true)) }
{
    let frames = frames.max(1);
    if positional {
        return Block::make_positional(alloc, frames.min(8192), 0);
    }
    Block::make(alloc, frames.min(65536), 0)
}

// Tracks whose flushes carry their position.
const PLACED: Kind = Kind {
    positional: true,
    ..FAST
};

const PLACED_NORMAL: Kind = Kind {
    positional: true,
    ..NORMAL
};

const STREAMS: &[Case] = &[
    Case {
        what: "a flush drops what was released when it is seen",
        kinds: &[FAST],
        sizes: (2, 1),
        rows: &[
            Row::Sends(0, OPEN, 0),
            Row::Writes(0, 3),
            Row::Flushes(0),
            Row::Sends(0, FLUSH, 0),
            Row::Writes(0, 2),
            Row::Sends(0, START, 1),
            Row::Turns(0, PUSH_1, Some(514)),
            Row::Status(514),
            Row::Polls(1),
            Row::Plays(2, Seen::Flushed { dropped: 5 }, [0; 4]),
            Row::Plays(2, Seen::Empty, [0; 4]),
            Row::Reports(1, 5, 1, [0, 1]),
            Row::Turns(0, Push::Clean, Some(770)),
        ],
    },
    Case {
        what: "a positional flush drops what was released before it",
        kinds: &[PLACED],
        sizes: (2, 1),
        rows: &[
            Row::Sends(0, OPEN, 0),
            Row::Writes(0, 3),
            Row::Flushes(0),
            Row::Sends(0, FLUSH, 0),
            Row::Writes(0, 2),
            Row::Sends(0, START, 1),
            Row::Turns(0, PUSH_1, Some(514)),
            Row::Status(514),
            Row::Polls(1),
            Row::Plays(2, Seen::Flushed { dropped: 3 }, [0; 4]),
            Row::Plays(2, Seen::Frames { count: 2 }, [1, 2, 0, 0]),
            Row::Reports(1, 5, 1, [1, 0]),
            Row::Turns(0, Push::Clean, Some(770)),
        ],
    },
    Case {
        what: "a normal track is flushed by position",
        kinds: &[PLACED_NORMAL],
        sizes: (2, 1),
        rows: &[
            Row::Sends(0, OPEN, 0),
            Row::Sends(0, START, 0),
            Row::Mixes(0, PUSH_1, Some(514)),
            Row::Clears(1),
            Row::Writes(0, 5),
            Row::Flushes(0),
            Row::Writes(0, 3),
            MIXES,
            Row::Hears([0; 4]),
            MIXES,
            MIXES,
            Row::Hears([1, 2, 3, 0]),
            MIXES,
            MIXES,
            Row::Hears([0; 4]),
        ],
    },
    Case {
        what: "a normal track is flushed by position",
        kinds: &[NORMAL],
        sizes: (2, 1),
        rows: &[
            Row::Sends(0, OPEN, 0),
            Row::Sends(0, START, 0),
            Row::Mixes(0, PUSH_1, Some(514)),
            Row::Clears(1),
            Row::Writes(0, 5),
            Row::Flushes(0),
            Row::Writes(0, 3),
            MIXES,
            Row::Hears([0; 4]),
            MIXES,
            MIXES,
            Row::Hears([0; 4]),
            MIXES,
            MIXES,
            Row::Hears([0; 4]),
        ],
    },
    Case {
        what: "a short write is played and its rest is missing",
        kinds: &[FAST],
        sizes: (4, 1),
        rows: &[
            Row::Sends(0, OPEN, 0),
            Row::Sends(0, START, 0),
            Row::Turns(0, PUSH_1, Some(514)),
            Row::Status(514),
            Row::Writes(0, 3),
            Row::Clears(0),
            Row::Polls(1),
            Row::Plays(4, Seen::Frames { count: 3 }, [1, 2, 3, 0]),
            Row::Clears(1),
            Row::Plays(4, Seen::Empty, [0; 4]),
            Row::Clears(1),
        ],
    },
    Case {
        what: "a short write of a normal track fills a buffer",
        kinds: &[NORMAL],
        sizes: (4, 1),
        rows: &[
            Row::Sends(0, OPEN, 0),
            Row::Writes(0, 3),
            Row::Sends(0, START, 0),
            Row::Mixes(0, PUSH_1, Some(514)),
            Row::Saw(true, 16),
            Row::Clears(1),
            Row::Hears([1, 2, 3, 0]),
            Row::Mixes(0, Push::Clean, None),
            Row::Saw(false, 16),
            Row::Clears(1),
            Row::Hears([0; 4]),
        ],
    },
    Case {
        what: "a track that plays is not flushed",
        kinds: &[FAST],
        sizes: (2, 1),
        rows: &[
            Row::Sends(0, OPEN, 0),
            Row::Sends(0, START, 0),
            Row::Turns(0, PUSH_1, Some(514)),
            Row::Status(514),
            Row::Writes(0, 2),
            Row::Clears(0),
            Row::Polls(1),
            Row::Plays(2, Seen::Frames { count: 2 }, [1, 2, 0, 0]),
            Row::Reports(1, 2, 0, [1, 0]),
            Row::Turns(0, Push::Clean, None),
            Row::Sends(0, FLUSH, 0),
            Row::Writes(0, 2),
            Row::Turns(0, Push::Clean, Some(770)),
            Row::Plays(2, Seen::Frames { count: 2 }, [1, 2, 0, 0]),
        ],
    },
];

#[test]
fn flushes_and_short_writes_are_played(rt: HostRuntime) {
    assert_eq!(rt; first_wrong(rt.alloc(), STREAMS), "");
}
