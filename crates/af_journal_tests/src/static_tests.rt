//! The player beside a plain model that goes frame by frame, on one thread and on two.
ghost use Rattle.std.specs.Prelude.{◌≡◌, ◌<◌};
ghost use Rattle.af_static.specs.Ends.{IsPlayerOf};

use af_base::{Frame, Gains, Memory, Steps};
use af_static::{InHand, Player, Shared, Unrolled, make};
use std::alloc::Global;
use std::marker::Brand;
use std::mem::drop;
use std::sync::ledger::{Blank, Ledger};
use std::test::Fail;

pub(crate) type Numbers = (u32, u32, u32);

const MOST: u32 = u32::MAX;

const SILENCE: Frame = Frame { left: 0, right: 0 };

// Starts, ends and counts: loops that are too short, the shortest and whole ones, none, some and endless jumps, and ends before starts and outside.
const SETTINGS: [Numbers; 14] = [
    (2, 17, 1),
    (2, 18, 1),
    (2, 18, 2),
    (0, 20, 1),
    (0, 20, MOST),
    (4, 20, 2),
    (1, 17, MOST),
    (2, 18, 0),
    (20, 0, 0),
    (21, 22, 0),
    (18, 2, 1),
    (5, 21, 1),
    (0, MOST, 1),
    (MOST, MOST, MOST),
];

// The plain model of a player.
#[derive(Clone, Copy)]
pub(crate) struct Plain {
    position: usize,
    start: usize,
    end: usize,
    left: u32,
    shut: bool,
}

pub(crate) const NEW: Plain = Plain {
    position: 0,
    start: 0,
    end: 0,
    left: 0,
    shut: false,
};

impl Plain {
    pub(crate) fn adopt(&mut self, size: usize, (start, end, count): Numbers) {
        let (start, end) = (start as usize, end as usize);
        if count == 0 {
            self.shut = self.shut || start > size;
            self.position = start;
        } else {
            let fits = start < end && end <= size && end - start >= 16;
            self.shut = self.shut || !fits;
            if self.position < start || self.position >= end {
                self.position = start;
            }
        }
        (self.start, self.end, self.left) = (start, end, count);
    }

    fn next(&mut self, frames: &[Frame]) -> Option<Frame> {
        if self.shut || self.position >= frames.len() {
            return None;
        }
        let frame = frames[self.position];
        self.position += 1;
        if self.left > 0 && self.position == self.end {
            self.position = self.start;
            if self.left != MOST {
                self.left -= 1;
            }
        }
        Some(frame)
    }

    // Whether the places hold the frames that come next, and then silence.
    pub(crate) fn plays(&mut self, frames: &[Frame], out: &[Frame]) -> bool {
        let mut right = true;
        for found in out {
            let wanted = self.next(frames).unwrap_or(SILENCE);
            right = right && *found == wanted;
        }
        right
    }
}

// How many frames a buffer has at most.
pub(crate) const COUNT: usize = 2048;

// Frames of which the first is 1 on both sides.
pub(crate) fn counted() -> [Frame; COUNT] {
    let mut frames = [SILENCE; COUNT];
    let mut number = 0i16;
    for frame in frames.iter_mut() {
        number = number.wrapping_add(1);
        *frame = Frame {
            left: number,
            right: number,
        };
    }
    frames
}

// One call at unity.
pub(crate) fn call<L: Ledger>(
    shared: &Shared,
    player: &mut Player,
    steps: &mut Steps<L>,
) -> ([Frame; 8], Unrolled)
    requires { IsPlayerOf shared.now player.old }
    ensures { IsPlayerOf shared.now player.new }
{
    let mut out = [SILENCE; 8];
    let unrolled = player.mix_next(shared, Gains::clamped(0x1000_1000), &mut out, steps);
    (out, unrolled)
}

// Whether five calls play as the model does.
fn plays<L: Ledger>(
    shared: &Shared,
    player: &mut Player,
    plain: &mut Plain,
    frames: &[Frame],
    steps: &mut Steps<L>,
) -> bool
    requires { IsPlayerOf shared.now player.old }
    ensures { IsPlayerOf shared.now player.new }
{
    let mut right = true;
    for _ in 0..5 {
        let (out, _) = call(shared, player, steps);
        right = plain.plays(frames, &out) && right;
    }
    right
}

// Whether one setting and then another is played of 20 frames as the model does.
fn both_play<L: Ledger>(
    alloc: Global,
    blank: Blank,
    frames: &[Frame],
    first: Numbers,
    second: Numbers,
) -> Result<bool, Memory>
    requires ledger { (blank.name ≡ L.name) × (blank.parts ≡ L.parts) × (0 < blank.parts) }
{
    if frames.len() != 20 {
        return Ok(false);
    }
    let mut steps = Steps::<L>::start(blank);
    let (shared, mut setter, mut player) = make(alloc, frames)?;
    let mut plain = NEW;
    setter.set(&shared, first.0, first.1, first.2, &mut steps);
    plain.adopt(20, first);
    let before = plays(&shared, &mut player, &mut plain, frames, &mut steps);
    setter.set(&shared, second.0, second.1, second.2, &mut steps);
    if !plain.shut {
        plain.adopt(20, second);
    }
    let after = plays(&shared, &mut player, &mut plain, frames, &mut steps);
    drop(player);
    drop(setter);
    drop(shared);
    Ok(before && after)
}

// How many settings are played so after one.
fn played_after(alloc: Global, frames: &[Frame], first: Numbers) -> Result<usize, Memory> {
    let mut right = 0usize;
    for second in &SETTINGS {
        let played = both_play::<Brand>(alloc, Blank::new(1), frames, first, *second)?;
        right = right.wrapping_add(usize::from(played));
    }
    Ok(right)
}

#[test]
fn each_setting_after_each_plays_as_the_model(rt: HostRuntime) {
    let all = counted();
    let frames = &all[..20];
    for first in &SETTINGS {
        let (start, end, count) = *first;
        let right = played_after(rt.alloc(), frames, *first);
        assert!(rt; right == Ok(SETTINGS.len()), "after {start} {end} {count}");
    }
}

// The left samples.
fn lefts(out: &[Frame; 8]) -> [i16; 8] {
    let mut samples = [0; 8];
    for i in 0..8 {
        samples[i] = out[i].left;
    }
    samples
}

// What five calls play of the frames 1 to 20 under one setting, and what they answer.
fn five_calls<L: Ledger>(
    alloc: Global,
    blank: Blank,
    setting: Numbers,
) -> Result<([[i16; 8]; 5], [Unrolled; 5]), Memory>
    requires ledger { (blank.name ≡ L.name) × (blank.parts ≡ L.parts) × (0 < blank.parts) }
{
    let none = Unrolled {
        number: 0,
        filled: 0,
        shut: None,
    };
    let (mut samples, mut answers) = ([[0; 8]; 5], [none; 5]);
    let mut steps = Steps::<L>::start(blank);
    let (shared, mut setter, mut player) = make(alloc, &counted()[..20])?;
    setter.set(&shared, setting.0, setting.1, setting.2, &mut steps);
    for i in 0..5 {
        let (out, unrolled) = call(&shared, &mut player, &mut steps);
        samples[i] = lefts(&out);
        answers[i] = unrolled;
    }
    drop(player);
    drop(setter);
    drop(shared);
    Ok((samples, answers))
}

// The samples of a loop that is played twice, and of the rest behind it.
const LOOPED: [[i16; 8]; 5] = [
    [3, 4, 5, 6, 7, 8, 9, 10],
    [11, 12, 13, 14, 15, 16, 17, 18],
    [3, 4, 5, 6, 7, 8, 9, 10],
    [11, 12, 13, 14, 15, 16, 17, 18],
    [19, 20, 0, 0, 0, 0, 0, 0],
];

macro_rules! unrolled {
    ($filled:expr, $shut:expr) => {
        Unrolled {
            number: 1,
            filled: $filled,
            shut: $shut,
        }
    };
}

const SHUT: Unrolled = unrolled!(0, Some((2, 17, 1)));

// A setting, the samples that are played then, and what the calls answer, from one on.
struct Case {
    setting: Numbers,
    samples: [[i16; 8]; 5],
    from: usize,
    answers: &'static [Unrolled],
}

// A loop is played twice and then the rest; one of fifteen frames shuts the player.
const CASES: [Case; 2] = [
    Case {
        setting: (2, 18, 1),
        samples: LOOPED,
        from: 3,
        answers: &[unrolled!(8, None), unrolled!(2, None)],
    },
    Case {
        setting: (2, 17, 1),
        samples: [[0; 8]; 5],
        from: 0,
        answers: &[SHUT; 5],
    },
];

// Whether five calls under the setting of a case play and answer so.
fn is_so(alloc: Global, case: &Case) -> Result<bool, Memory> {
    let (samples, answers) = five_calls::<Brand>(alloc, Blank::new(1), case.setting)?;
    Ok(samples == case.samples && &answers[case.from.min(5)..] == case.answers)
}

#[test]
fn five_calls_of_two_loops(rt: HostRuntime) {
    for case in &CASES {
        let end = case.setting.1;
        let found = is_so(rt.alloc(), case);
        assert!(rt; found == Ok(true), "end {end}");
    }
}

#[test]
fn both_ends_in_one_hand(rt: HostRuntime) -> Result<(), Fail> {
    let frames = [
        Frame { left: 1, right: 2 },
        Frame { left: 3, right: 4 },
        Frame { left: 5, right: 6 },
    ];
    let mut hand = InHand::make(rt.alloc(), &frames)?;
    let mut out = [SILENCE; 2];
    let first = hand.play(Gains::clamped(0x1000_1000), &mut out);
    let before = out;
    let number = hand.set(1, 0, 0);
    let second = hand.play(Gains::clamped(0x1000_1000), &mut out);
    drop(hand);
    assert!(rt; before == [frames[0], frames[1]] && number == 1);
    assert!(rt; out == [frames[1], frames[2]]);
    assert!(rt; first.number == 0 && first.filled == 2 && first.shut == None);
    assert!(rt; second.number == 1 && second.filled == 2 && second.shut == None);
    Ok(())
}
