//! A log that forgets, so that a mixer runs on.
ghost use Rattle.std.specs.Prelude.{◌≡◌, ◌+◌, ◌≤◌, ◌↔◌, true, false, if◌then◌else◌, List, IsTrue};
ghost use Rattle.af_base.specs.declared.log.CycleEntry.{CycleEntry};
ghost use Rattle.af_fast.specs.Mixer.{IsInOrderAfter, IsSound, all_entries, emptied, most_entries};

use crate::mixer::FastMixer;

// The most entries of a life, since a report counts looks in 32 bits.
const MOST_ENTRIES: u64 = 0xffff_ffff;

impl FastMixer {
    /// Forgets all entries of the log with their frames, which a caller who wants them reads by `log` before. The log is then empty and has the room that it had: nothing is taken or freed, and nothing else changes. It may come between any two calls.
    ///
    /// A mixer that forgets runs on: it answers Spent only if a log got full that wasn't forgotten. Its reports go on as if nothing were forgotten: their cycle is the number of all entries of its life. As they count looks in 32 bits, a life has at most 2^32 - 1 entries. If a whole log more could go beyond that it answers false, and nothing is done: this log is the mixer's last.
    pub fn forget(&mut self) -> bool
        requires order { IsSound self.old }
        ensures order { (earlier : List CycleEntry) → IsInOrderAfter earlier self.old → IsInOrderAfter (if result then all_entries earlier self.old else earlier) self.new }
        ensures forgets { result ≡ true → self.new ≡ emptied self.old }
        ensures rests { result ≡ false → self.new ≡ self.old }
        ensures few { IsTrue result ↔ (self.old.count + self.old.cycles ≤ most_entries) }
    {
        if self.report.cycle + self.cycles as u64 > MOST_ENTRIES {
            return false;
        }
        self.log.clear();
        true
    }
}
