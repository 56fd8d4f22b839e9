//! The buffer of a turn: the tracks without a slot are mixed, and what they gave goes into the pipe.
ghost use Rattle.std.specs.Prelude.{◌≡◌, ◌+◌, ◌*◌, ◌<◌, ◌≤◌, ◌^◌, [], MatchBool, nat_le, length, map, is_some, All};
ghost use Rattle.af_base.specs.Turn.{take_seen};
ghost use Rattle.af_link.specs.PipeEnds.{HasPut, in_made};
ghost use Rattle.af_life.specs.Kept.{asked};
ghost use Rattle.af_life.specs.Plays.{put_by};
ghost use Rattle.af_life.specs.Small.{AreUpTo};
ghost use Rattle.af_normal.specs.AllMixed.{AreHome, AreServersOf, HasTakes};
ghost use Rattle.af_normal.specs.Mixing.{MixesTo};
ghost use Rattle.af_normal.specs.State.{setup_of};
ghost use Rattle.af_normal.specs.Sums.{Fits};
ghost use Rattle.af_normal.specs.TurnMade.{PlaysAll, has_mixed, mixing_of};

use crate::mixer::NormalMixer;
use crate::plays::mix_all;
use crate::sums::mix_takes;
use af_base::Steps;
use af_link::Links;
use std::sync::ledger::Ledger;

impl NormalMixer {
    // Each track without a slot that is to be heard is mixed.
    fn mix<L: Ledger>(&mut self, links: &Links<'_>, steps: &mut Steps<L>)
        requires tracks { length self.old.tracks ≤ 32 }
        requires streams { length self.old.streams ≡ length self.old.tracks }
        requires blocks { length self.old.tracks ≤ length links.now.streams.now }
        requires home { AreHome self.old.tracks self.old.streams }
        requires ready { AreServersOf links.now.streams.now self.old.streams }
        requires few { All (λ track. AreUpTo (2 ^ 31) track.own) self.old.tracks }
        requires takes { HasTakes (asked (setup_of self.old)) (length self.old.tracks) self.old.entry.mixes self.old.spare_takes }
        requires none { self.old.entry.mixes.items ≡ [] }
        requires sizes { (1 ≤ asked (setup_of self.old)) × (asked (setup_of self.old) < 2 ^ 32) }
        ensures mixes { MixesTo (asked (setup_of self.old)) (length self.old.tracks) (mixing_of self.old) (mixing_of self.new) }
        ensures long { length self.new.tracks ≡ length self.old.tracks }
        ensures there { map is_some self.new.streams ≡ map is_some self.old.streams }
        ensures ready { AreServersOf links.now.streams.now self.new.streams }
        ensures takes { HasTakes (asked (setup_of self.old)) (length self.old.tracks) self.new.entry.mixes self.new.spare_takes }
        ensures same { self.new ≡ (record self.old { tracks = self.new.tracks; streams = self.new.streams; entry = self.new.entry; spare_takes = self.new.spare_takes }) }
        ensures entry { self.new.entry ≡ (record self.old.entry { mixes = self.new.entry.mixes }) }
    {
        let NormalMixer {
            tracks,
            streams,
            entry,
            spare_takes,
            buffer,
            ..
        } = self;
        mix_all(
            links,
            tracks,
            streams,
            &mut entry.mixes,
            spare_takes,
            buffer,
            steps,
        );
    }

    // The tracks that are due are mixed, if the pipe has room for a buffer.
    fn mix_within<L: Ledger>(&mut self, links: &Links<'_>, room: u32, steps: &mut Steps<L>)
        requires tracks { (length self.old.tracks ≤ 32) × (length self.old.tracks ≡ length self.old.settings) }
        requires streams { length self.old.streams ≡ length self.old.tracks }
        requires blocks { length self.old.tracks ≤ length links.now.streams.now }
        requires home { AreHome self.old.tracks self.old.streams }
        requires ready { AreServersOf links.now.streams.now self.old.streams }
        requires few { All (λ track. AreUpTo (2 ^ 31) track.own) self.old.tracks }
        requires takes { HasTakes (asked (setup_of self.old)) (length self.old.tracks) self.old.entry.mixes self.old.spare_takes }
        requires none { self.old.entry.mixes.items ≡ [] }
        requires sizes { (1 ≤ asked (setup_of self.old)) × (self.old.frames ≤ 1024) × (self.old.normal ≤ 16) }
        ensures mixes { MatchBool (nat_le (asked (setup_of self.old)) room) (MixesTo (asked (setup_of self.old)) (length self.old.tracks) (mixing_of self.old) (mixing_of self.new)) (mixing_of self.new ≡ mixing_of self.old) }
        ensures long { length self.new.tracks ≡ length self.old.tracks }
        ensures there { map is_some self.new.streams ≡ map is_some self.old.streams }
        ensures ready { AreServersOf links.now.streams.now self.new.streams }
        ensures takes { HasTakes (asked (setup_of self.old)) (length self.old.tracks) self.new.entry.mixes self.new.spare_takes }
        ensures room { 1 ≤ length self.new.entry.mixes.items → asked (setup_of self.old) ≤ room }
        ensures few { length self.new.entry.mixes.items ≤ 32 }
        ensures fit { All (Fits (asked (setup_of self.old)) (length self.old.settings)) self.new.entry.mixes.items }
        ensures same { self.new ≡ (record self.old { tracks = self.new.tracks; streams = self.new.streams; entry = self.new.entry; spare_takes = self.new.spare_takes }) }
        ensures entry { self.new.entry ≡ (record self.old.entry { mixes = self.new.entry.mixes }) }
    {
        if room < self.normal * self.frames {
            return;
        }
        self.mix(links, steps);
    }

    // What was taken is mixed and put into the pipe; whether something was.
    fn put<L: Ledger>(&mut self, links: &Links<'_>, steps: &mut Steps<L>) -> bool
        requires pipe { in_made self.old.pipe ≡ links.now.pipe.now }
        requires room { 1 ≤ length self.old.entry.mixes.items → asked (setup_of self.old) ≤ self.old.pipe.room }
        requires sizes { (1 ≤ asked (setup_of self.old)) × (asked (setup_of self.old) < 2 ^ 32) }
        requires few { length self.old.entry.mixes.items ≤ 32 }
        requires fit { All (Fits (asked (setup_of self.old)) (length self.old.settings)) self.old.entry.mixes.items }
        requires scales { All (λ setting. setting.scale ≤ 4096) self.old.settings }
        ensures pipe { in_made self.new.pipe ≡ links.now.pipe.now }
        ensures put { HasPut self.old.pipe.pass.part (put_by (setup_of self.old) (map take_seen self.old.entry.mixes.items)) self.new.pipe.pass.part }
        ensures same { self.new ≡ (record self.old { pipe = self.new.pipe }) }
        ensures mixed { result ≡ has_mixed self.old }
    {
        if self.entry.mixes.as_slice().is_empty() {
            self.ends.1.put(links.pipe, &[], steps);
            return false;
        }
        let NormalMixer {
            settings,
            entry,
            ends,
            sums,
            buffer,
            ..
        } = self;
        mix_takes(entry.mixes.as_slice(), settings, sums, buffer);
        ends.1.put(links.pipe, buffer, steps);
        true
    }

    /// If the pipe has room for a buffer it is mixed and put there; whether it was.
    pub(crate) fn play<L: Ledger>(
        &mut self,
        links: &Links<'_>,
        room: u32,
        steps: &mut Steps<L>,
    ) -> bool
        requires tracks { (length self.old.tracks ≤ 32) × (length self.old.tracks ≡ length self.old.settings) }
        requires streams { length self.old.streams ≡ length self.old.tracks }
        requires blocks { length self.old.tracks ≤ length links.now.streams.now }
        requires home { AreHome self.old.tracks self.old.streams }
        requires ready { AreServersOf links.now.streams.now self.old.streams }
        requires few { All (λ track. AreUpTo (2 ^ 31) track.own) self.old.tracks }
        requires takes { HasTakes (asked (setup_of self.old)) (length self.old.tracks) self.old.entry.mixes self.old.spare_takes }
        requires none { self.old.entry.mixes.items ≡ [] }
        requires sizes { (1 ≤ asked (setup_of self.old)) × (self.old.frames ≤ 1024) × (self.old.normal ≤ 16) }
        requires pipe { in_made self.old.pipe ≡ links.now.pipe.now }
        requires room { self.old.pipe.room ≡ room }
        requires scales { All (λ setting. setting.scale ≤ 4096) self.old.settings }
        ensures plays { PlaysAll room self.old self.new }
        ensures mixed { result ≡ has_mixed self.new }
        ensures long { length self.new.tracks ≡ length self.old.tracks }
        ensures there { map is_some self.new.streams ≡ map is_some self.old.streams }
        ensures ready { AreServersOf links.now.streams.now self.new.streams }
        ensures takes { HasTakes (asked (setup_of self.old)) (length self.old.tracks) self.new.entry.mixes self.new.spare_takes }
        ensures entry { self.new.entry ≡ (record self.old.entry { mixes = self.new.entry.mixes }) }
    {
        self.mix_within(links, room, steps);
        self.put(links, steps)
    }
}
