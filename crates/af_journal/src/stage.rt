//! Which line may follow which in a journal's text.
ghost use Rattle.std.specs.Prelude.{◌≡◌, ◌+◌, ◌*◌, ◌<◌, ◌^◌};
ghost use Rattle.af_base.specs.Log.{slots};
ghost use Rattle.af_journal.specs.Stages.{after_call, after_clients, after_entry, after_fast, after_line, after_look, after_part, after_shown, after_slot, after_slot_line, after_take, after_taken, after_turn, after_words, comes, is_submix, may_end, shows_submix};

use crate::line::Line;
use af_base::{SLOTS, Seen};

/// What was read last of a journal's text, and the least of what may come.
#[derive(Clone, Copy, Debug, PartialEq, Eq)]
pub enum Stage {
    /// Nothing.
    Nothing,
    /// A round's mark, or a client's calls: the client of track `low` may come, or a later one.
    Clients { low: u32 },
    /// A call of the client before `low`.
    Calls { low: u32 },
    /// The mark of the client before `low`: its first call is due.
    Client { low: u32 },
    /// A line of a turn: of track `low` the part may come, 0 for a look, 1 for DISABLED, 2 for a status.
    Turn { low: u32, part: u32 },
    /// A look at a track's command block whose two words are due.
    Look { track: u32 },
    /// The push, or a track that was mixed: track `low` may come, or a later one.
    Takes { low: u32 },
    /// A track that was mixed, whose words are due.
    Take { due: u32, low: u32 },
    /// A turn that answered that the mixer has ended.
    Turned,
    /// The mark of entries: one is due.
    Fast,
    /// A mix, or a slot of it: slot `low` may come, or a later one.
    Mixed { low: u32 },
    /// A slot whose words are due.
    Slot { due: u32, low: u32 },
    /// An entry that isn't a mix.
    Entries,
}

// After a turn entries may come, or a round.
fn after_turn(line: Line) -> Option<Stage>
    ensures { result ≡ after_turn line }
{
    match line {
        Line::Fast => Some(Stage::Fast),
        Line::Round => Some(Stage::Clients { low: 0 }),
        _ => None,
    }
}

// After clients another one may come, a turn, and what may after a turn.
fn after_clients(tracks: u32, low: u32, line: Line) -> Option<Stage>
    ensures { result ≡ after_clients tracks low line }
{
    match line {
        Line::Client { track } => {
            if low <= track && track < tracks {
                Some(Stage::Client { low: track + 1 })
            } else {
                None
            }
        }
        Line::Turn { .. } => Some(Stage::Turn { low: 0, part: 0 }),
        Line::Ended => Some(Stage::Turned),
        _ => after_turn(line),
    }
}

// After a call another one may come, or what may after clients.
fn after_call(tracks: u32, low: u32, line: Line) -> Option<Stage>
    ensures { result ≡ after_call tracks low line }
{
    match line {
        Line::Call { .. } => Some(Stage::Calls { low }),
        _ => after_clients(tracks, low, line),
    }
}

// The stage after a look: its words are due, if it took some.
fn after_look(track: u32, seen: Seen) -> Stage
    ensures { result ≡ after_look track seen }
{
    if seen.count() == 2 {
        Stage::Look { track }
    } else {
        Stage::Turn {
            low: track,
            part: 0,
        }
    }
}

// A part of a track comes at this one or later.
fn comes(track: u32, part: u32, low_track: u32, low_part: u32) -> bool
    ensures { result ≡ comes track part low_track low_part }
{
    low_track < track || (low_track == track && low_part <= part)
}

// In a turn the lines of its tracks may come, and then the push.
fn after_part(tracks: u32, low: u32, part: u32, line: Line) -> Option<Stage>
    ensures { result ≡ after_part tracks low part line }
{
    match line {
        Line::Look { track, seen, .. } if track < tracks && comes(track, 0, low, part) => {
            Some(after_look(track, seen))
        }
        Line::Disabled { track } if track < tracks && comes(track, 1, low, part) => {
            Some(Stage::Turn {
                low: track,
                part: 2,
            })
        }
        Line::Status { track, .. } if track < tracks && comes(track, 2, low, part) => {
            Some(Stage::Turn {
                low: track + 1,
                part: 0,
            })
        }
        Line::Pushed { .. } => Some(Stage::Takes { low: 0 }),
        _ => None,
    }
}

// The stage after a take: its words are due, if it took some.
fn after_taken(track: u32, seen: Seen) -> Stage
    requires { track + 1 < 2 ^ 32 }
    ensures { result ≡ after_taken track seen }
{
    if seen.count() == 0 {
        Stage::Takes { low: track + 1 }
    } else {
        Stage::Take {
            due: seen.count(),
            low: track + 1,
        }
    }
}

// After a take one of a later track may come, or what may after a turn.
fn after_take(tracks: u32, low: u32, line: Line) -> Option<Stage>
    ensures { result ≡ after_take tracks low line }
{
    match line {
        Line::Take { track, seen, .. } => {
            if low <= track && track < tracks {
                Some(after_taken(track, seen))
            } else {
                None
            }
        }
        _ => after_turn(line),
    }
}

// An entry is due: a mix has slots.
fn after_fast(line: Line) -> Option<Stage>
    ensures { result ≡ after_fast line }
{
    match line {
        Line::Entry { kind, .. } => {
            if kind == 0 {
                Some(Stage::Mixed { low: 0 })
            } else {
                Some(Stage::Entries)
            }
        }
        _ => None,
    }
}

// After an entry another one may come, or a round.
fn after_entry(line: Line) -> Option<Stage>
    ensures { result ≡ after_entry line }
{
    match line {
        Line::Round => Some(Stage::Clients { low: 0 }),
        _ => after_fast(line),
    }
}

// The submix shows frames or nothing.
fn shows_submix(seen: Seen) -> bool
    ensures { result ≡ shows_submix seen }
{
    matches!(seen, Seen::Frames { .. } | Seen::Empty)
}

// The submix is at unity.
pub(crate) fn is_submix(scale: u16, mono: bool, gains: u32, flush: u32, seen: Seen) -> bool
    ensures { result ≡ is_submix scale mono gains flush seen }
{
    scale == 4096 && !mono && gains == 0x1000_1000 && flush == 0 && shows_submix(seen)
}

// The stage after a slot: its words are due, if it took some.
fn after_shown(slot: u32, seen: Seen) -> Stage
    requires { slot < slots }
    ensures { result ≡ after_shown slot seen }
{
    if seen.count() == 0 {
        Stage::Mixed { low: slot + 1 }
    } else {
        Stage::Slot {
            due: seen.count(),
            low: slot + 1,
        }
    }
}

// The first slot of a mix is the submix, and then the others come in rising order.
fn after_slot_line(low: u32, line: Line) -> Option<Stage>
    ensures { result ≡ after_slot_line low line }
{
    match line {
        Line::Slot {
            slot,
            scale,
            mono,
            gains,
            flush,
            seen,
            ..
        } => {
            if low == 0 {
                if slot == 0 && is_submix(scale, mono, gains, flush, seen) {
                    Some(after_shown(slot, seen))
                } else {
                    None
                }
            } else if low <= slot && slot < SLOTS as u32 {
                Some(after_shown(slot, seen))
            } else {
                None
            }
        }
        _ => None,
    }
}

// After a slot another one may come, or, once the submix is there, what may after an entry.
fn after_slot(low: u32, line: Line) -> Option<Stage>
    ensures { result ≡ after_slot low line }
{
    match line {
        Line::Slot { .. } => after_slot_line(low, line),
        _ => { if low == 0 { None } else { after_entry(line) } }
    }
}

/// The stage after a line of numbers, of a journal of so many tracks; None if it may not come.
pub(crate) fn after_line(tracks: u32, stage: Stage, line: Line) -> Option<Stage>
    ensures { result ≡ after_line tracks stage line }
{
    match stage {
        Stage::Nothing if matches!(line, Line::Round) => Some(Stage::Clients { low: 0 }),
        Stage::Clients { low } => after_clients(tracks, low, line),
        Stage::Calls { low } => after_call(tracks, low, line),
        Stage::Client { low } if matches!(line, Line::Call { .. }) => Some(Stage::Calls { low }),
        Stage::Turn { low, part } => after_part(tracks, low, part, line),
        Stage::Takes { low } => after_take(tracks, low, line),
        Stage::Turned => after_turn(line),
        Stage::Fast => after_fast(line),
        Stage::Mixed { low } => after_slot(low, line),
        Stage::Entries => after_entry(line),
        _ => None,
    }
}

/// The stage after a line of so many packed words; None if it may not come.
pub(crate) fn after_words(stage: Stage, count: usize) -> Option<Stage>
    ensures { result ≡ after_words stage count }
{
    match stage {
        Stage::Look { track } if count == 2 => Some(Stage::Turn {
            low: track,
            part: 0,
        }),
        Stage::Take { due, low } if count == due as usize => Some(Stage::Takes { low }),
        Stage::Slot { due, low } if count == due as usize => Some(Stage::Mixed { low }),
        _ => None,
    }
}

/// Whether a text may end here.
pub(crate) fn may_end(stage: Stage) -> bool
    ensures { result ≡ may_end stage }
{
    match stage {
        Stage::Nothing
        | Stage::Clients { .. }
        | Stage::Calls { .. }
        | Stage::Takes { .. }
        | Stage::Turned
        | Stage::Entries => true,
        Stage::Mixed { low } => low != 0,
        _ => false,
    }
}
