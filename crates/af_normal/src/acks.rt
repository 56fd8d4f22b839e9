//! What comes home once the last push is acknowledged.
ghost use Rattle.std.specs.Prelude.{◌≡◌, ◌<◌, ◌≤◌, true, length};
ghost use Rattle.af_base.specs.Log.{slots};
ghost use Rattle.af_life.specs.Kept.{is_returning, slot_number, track_at};
ghost use Rattle.af_normal.specs.Coming.{HaveSlots, Welcomes, WelcomesTo};

use crate::mixer::NormalMixer;
use af_life::{Holder, TrackKept};

impl NormalMixer {
    // A returning proxy is taken back if it is in hand.
    fn welcome(&mut self, i: usize)
        requires track { (i < length self.old.tracks) × (i < length self.old.streams) }
        requires slot { is_returning (track_at self.old.tracks i).holder ≡ true → (1 ≤ slot_number (track_at self.old.tracks i)) × (slot_number (track_at self.old.tracks i) < slots) }
        ensures { Welcomes i self.old self.new }
    {
        let track = self.tracks[i];
        if track.holder != Holder::Returning {
            return;
        }
        let Some(server) = self.mutator.take_back(track.slot_number()) else {
            return;
        };
        self.streams[i] = Some(server);
        self.tracks[i] = TrackKept {
            holder: Holder::Home,
            ..track
        };
    }

    // Each returning proxy that is in hand comes home.
    pub(crate) fn welcome_all(&mut self)
        requires long { length self.old.streams ≡ length self.old.tracks }
        requires slots { HaveSlots self.old.tracks }
        ensures { WelcomesTo (length self.old.tracks) self.old self.new }
    {
        for i in 0..self.tracks.len() {
            self.welcome(i);
        }
    }
}
