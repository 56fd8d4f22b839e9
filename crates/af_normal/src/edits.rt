//! The edits of the draft: which tracks are lent to the fast mixer, and what it is to do.
ghost use Rattle.std.specs.Prelude.{◌≡◌, ℕ, ◌+◌, ◌*◌, ◌<◌, ◌≤◌, ◌^◌, ◌||◌, not, ◌==◌, length, slice_set, Some, None, true, false};
ghost use Rattle.af_base.specs.Command.{code_of};
ghost use Rattle.af_base.specs.Log.{slots};
ghost use Rattle.af_model.specs.Draft.{attached, detached, draft_commanded as with_command};
ghost use Rattle.af_model.specs.StateQueue.{slot_of, carries};
ghost use Rattle.af_server.specs.Order.{IsInOrder, ServerState};
ghost use Rattle.af_stateq.specs.Mutates.{is_out};
ghost use Rattle.af_link.specs.Names.{IsStreamOf};
ghost use Rattle.af_link.specs.declared.names.StreamNames.{StreamNames as Names};
ghost use Rattle.af_life.specs.Kept.{plays, slot_number, setting_of, track_at};
ghost use Rattle.af_life.specs.Edits.{lent_by};
ghost use Rattle.af_normal.specs.Mixing.{stream_at};
ghost use Rattle.af_normal.specs.Serving.{known_at};
ghost use Rattle.af_normal.specs.State.{setup_of};
ghost use Rattle.af_normal.specs.Editing.{LetsGo, Lends};
ghost use Rattle.af_normal.specs.Mutating.{EditsAll, EditsTo, EditsTrack, IsEditable, Pushes, begun, commands, due_command};
ghost use Rattle.af_normal.specs.Order.{IsOpen};
ghost use Rattle.af_normal.specs.Turning.{stream_fits};
ghost use Rattle.af_stateq.specs.Mutates.{InDraft};

use crate::attend::known;
use crate::mixer::NormalMixer;
use af_base::{Command, Push, Steps};
use af_life::{Holder, TrackKept, next_command};
use af_link::Links;
use std::sync::ledger::Ledger;

impl NormalMixer {
    // A lent track is detached.
    fn let_go(&mut self, i: usize)
        requires editing { self.old.mutator.editing ≡ true }
        requires track { i < length self.old.tracks }
        requires slot { (1 ≤ slot_number (track_at self.old.tracks i)) × (slot_number (track_at self.old.tracks i) < slots) }
        requires attached { carries self.old.mutator.draft (slot_number (track_at self.old.tracks i)) ≡ true }
        requires room { self.old.mutator.draft.tracks_gen < 2 ^ 62 }
        ensures { LetsGo i self.old self.new }
    {
        let track = self.tracks[i];
        self.mutator.detach(track.slot_number());
        self.tracks[i] = TrackKept {
            holder: Holder::Returning,
            ..track
        };
    }

    // A track that is home is attached.
    fn lend(&mut self, i: usize)
        requires editing { self.old.mutator.editing ≡ true }
        requires track { (i < length self.old.tracks) × (i < length self.old.streams) × (i < length self.old.settings) × (i < 2 ^ 32) }
        requires slot { (1 ≤ slot_number (track_at self.old.tracks i)) × (slot_number (track_at self.old.tracks i) < slots) }
        requires free { is_out self.old.mutator.out (slot_number (track_at self.old.tracks i)) ≡ false }
        requires scale { (setting_of (setup_of self.old) i).scale ≤ 4096 }
        requires home { (s : ServerState) × (stream_at self.old.streams i ≡ Some s) × IsInOrder s × ((names : Names) → self.old.mutator.past.key ≡ Some names → IsStreamOf names.blocks i s) }
        requires room { ((slot_of self.old.mutator.draft (slot_number (track_at self.old.tracks i))).generation < 2 ^ 62) × (self.old.mutator.draft.tracks_gen < 2 ^ 62) }
        ensures { Lends i self.old self.new }
    {
        let Some(server) = self.streams[i].take() else {
            unreachable!()
        };
        let (track, setting) = (self.tracks[i], self.settings[i]);
        let own = known(&server);
        let slot = track.slot_number();
        self.mutator
            .attach(slot, setting.mono, setting.scale, i as u32, server);
        self.tracks[i] = track.lent_by(self.mutator.draft(), own);
    }

    // A track is detached or attached, if that is due; whether it was.
    fn edit(&mut self, i: usize) -> bool
        requires editing { self.old.mutator.editing ≡ true }
        requires track { (i < length self.old.tracks) × (i < length self.old.streams) × (i < length self.old.settings) × (i < 2 ^ 32) }
        requires may { IsEditable i self.old }
        ensures edits { EditsTrack i self.old self.new }
        ensures edited { self.new.mutator.edited ≡ (self.old.mutator.edited || result) }
    {
        let track = self.tracks[i];
        if track.must_leave() {
            self.let_go(i);
            return true;
        }
        if track.must_enter() {
            self.lend(i);
            return true;
        }
        false
    }

    // The command follows from what the edits left; whether it is another one.
    fn order(&mut self, room: u32) -> bool
        requires editing { self.old.mutator.editing ≡ true }
        requires sizes { (self.old.frames ≤ 1024) × (self.old.normal ≤ 16) }
        requires colds { self.old.mutator.draft.cold_gen < 2 ^ 62 }
        ensures orders { self.new ≡ record self.old { mutator = commands (due_command room self.old) self.old.mutator } }
        ensures edited { self.new.mutator.edited ≡ (self.old.mutator.edited || result) }
    {
        let before = self.mutator.draft().command;
        let exits = before.code() == Command::Exit.code();
        let size = 4 * (self.normal * self.frames);
        let command = next_command(exits, &self.tracks, room, size);
        if command.code() == before.code() {
            return false;
        }
        self.mutator.set_command(command);
        true
    }

    // Each track is detached or attached, if that is due; whether one was.
    fn edit_all(&mut self, links: &Links<'_>) -> bool
        requires may { (edits : ℕ) × (edits + 32 < 2 ^ 62) × IsOpen links.now edits self.old }
        requires none { self.old.mutator.edited ≡ false }
        ensures edits { EditsTo (length self.old.tracks) self.old self.new }
        ensures edited { result ≡ self.new.mutator.edited }
    {
        let mut edited = false;
        for i in 0..self.tracks.len() {
            let here = self.edit(i);
            edited = edited | here;
        }
        edited
    }

    /// One mutation of the draft: the tracks in order, and then the command.
    pub(crate) fn mutate(&mut self, links: &Links<'_>, room: u32)
        requires idle { self.old.mutator.editing ≡ false }
        requires may { (edits : ℕ) × (edits + 32 < 2 ^ 62) × IsOpen links.now edits (record self.old { mutator = begun self.old.mutator }) }
        requires sizes { (self.old.frames ≤ 1024) × (self.old.normal ≤ 16) }
        requires colds { self.old.mutator.draft.cold_gen < 2 ^ 62 }
        ensures edits { EditsAll room self.old self.new }
    {
        self.mutator.begin();
        let edited = self.edit_all(links);
        let ordered = self.order(room);
        self.mutator.end(edited || ordered);
    }

    /// The draft is pushed if it is to be and the last push was acknowledged.
    pub(crate) fn push<L: Ledger>(&mut self, links: &Links<'_>, steps: &mut Steps<L>) -> Push
        requires idle { self.old.mutator.editing ≡ false }
        requires together { self.old.mutator.past.queue ≡ links.now.queue.now }
        requires room { self.old.mutator.past.number < 2 ^ 62 }
        ensures pushes { Pushes result self.old self.new }
        ensures held { InDraft stream_fits self.new.mutator }
    {
        let pushed = self.mutator.push(links.queue, steps);
        if let Push::Pushed { .. } = pushed {
            self.exits = self.mutator.draft().command.code() == Command::Exit.code();
        }
        pushed
    }
}
