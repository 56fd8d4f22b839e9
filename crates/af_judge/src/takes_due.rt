//! Whether the takes of a turn are those of the tracks that are due.
ghost use Rattle.std.specs.Prelude.{◌≡◌, ◌↔◌, ℕ, ◌<◌, ◌≤◌, IsTrue, List, MatchOption, length, map};
ghost use Rattle.af_base.specs.Turn.{take_seen};
ghost use Rattle.af_life.specs.Kept.{track_at};
ghost use Rattle.af_life.specs.Plays.{is_mixed_here, mixed_here};
ghost use Rattle.af_judge.specs.NormalChanges.{tracks_from, with_due};

use af_base::NormalTake;
use af_life::TrackKept;

// The place of the next take once a track was come by, which is due or not; None if the take at this place isn't the one that is due.
fn after_due(takes: &[NormalTake], next: usize, due: bool, track: usize) -> Option<usize>
    requires { next ≤ length takes.now }
    ensures { MatchOption result ((others : List ℕ) → tracks_from takes.now next ≡ with_due due track others → ⊥) (λ after. (after ≤ length takes.now) × ((others : List ℕ) → (tracks_from takes.now next ≡ with_due due track others) ↔ (tracks_from takes.now after ≡ others))) }
{
    if !due {
        return Some(next);
    }
    if next == takes.len() || takes[next].track as usize != track {
        return None;
    }
    Some(next + 1)
}

// Whether the normal mixer mixes the track of a number itself.
fn is_mixed_here(tracks: &[TrackKept], track: usize) -> bool
    requires { track < length tracks.now }
    ensures { result ≡ is_mixed_here (track_at tracks.now track) }
{
    tracks[track].is_mixed_here()
}

/// Whether the takes are those of the tracks that the normal mixer mixes itself, in order.
pub fn are_mixed_here(takes: &[NormalTake], tracks: &[TrackKept]) -> bool
    ensures { IsTrue result ↔ (map (λ take. take.track) (map take_seen takes.now) ≡ mixed_here tracks.now) }
{
    let mut next = 0;
    for i in 0..tracks.len() {
        let Some(after) = after_due(takes, next, is_mixed_here(tracks, i), i) else {
            return false;
        };
        next = after;
    }
    next == takes.len()
}
