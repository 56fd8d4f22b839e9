//! Recordings and loops beside plain ones, frame by frame.
ghost use Rattle.af_words.specs.Asking.{IsSound};

use crate::words::{numbered, words_of};
use af_io::MemStore;
use af_offline::{Output, loop_output, record_output};
use af_words::{Request, request_of};
use std::alloc::Global;
use std::collections::VecDeque;
use std::mem::drop;
use std::test::*;

/// Up to so many frames of a queue are read.
fn read_plain(queue: &mut VecDeque<u8>, count: usize, bytes: &mut Vec<u8>) {
    for _ in 0..count {
        if let Some(number) = queue.pop_front() {
            let _added = bytes.extend_from_slice(&[number, 0, number, 0]);
        }
    }
}

/// What a recording of so many numbered frames reads, frame by frame.
fn plain_record(alloc: Global, count: u8, sizes: (usize, usize, usize)) -> Vec<u8> {
    let (room, supply, read) = sizes;
    let mut queue = VecDeque::new(alloc);
    let mut bytes = Vec::new(alloc);
    for number in 1..=count {
        if queue.len() < room {
            let _supplied = queue.push_back(number);
        }
        if usize::from(number) % supply.max(1) == 0 || number == count {
            read_plain(&mut queue, read, &mut bytes);
        }
    }
    read_plain(&mut queue, room, &mut bytes);
    drop(queue);
    bytes
}

/// What calls of a loop play of so many numbered frames add to bytes, frame by frame: how many frames are taken.
fn plain_loop(
    bytes: &mut Vec<u8>,
    size: u32,
    (places, calls): (u32, u32),
    (start, end, count): (u32, u32, u32),
) -> u32 {
    let (mut position, mut left, mut filled) = (start, count, 0u32);
    for _ in 0..places.saturating_mul(calls) {
        if position >= size {
            let _silence = bytes.extend_from_slice(&[0; 4]);
            continue;
        }
        let number = (position % 255) as u8 + 1;
        let _frame = bytes.extend_from_slice(&[number, 0, number, 0]);
        filled = filled.saturating_add(1);
        position += 1;
        if left > 0 && position == end {
            position = start;
            left -= u32::from(left < u32::MAX);
        }
    }
    filled
}

/// What is made of a file by a request, None if it asks for another command or memory ran out.
fn output_of(alloc: Global, store: &mut MemStore, request: Request<'_>) -> Option<Output>
    requires { IsSound request }
{
    match request {
        Request::Record { input, sizes, .. } => record_output(alloc, store, input, sizes).ok(),
        Request::Loop { input, turns, .. } => loop_output(alloc, store, input, turns).ok(),
        _ => None,
    }
}

/// What words make of a file, None if they ask for another command or memory ran out.
fn made(alloc: Global, store: &mut MemStore, words: &[String]) -> Option<Output> {
    match request_of(alloc, words) {
        Ok(Some(request)) => output_of(alloc, store, request),
        _ => None,
    }
}

/// Whether this line and these bytes were made.
fn is_made(output: Option<Output>, line: &str, bytes: &[u8]) -> Option<bool> {
    let output = output?;
    let so = output.line.as_str() == line && output.bytes.as_slice() == bytes;
    drop(output);
    Some(so)
}

/// Whether words over a file of so many bytes make this line and these bytes.
fn makes(alloc: Global, words: &str, length: usize, line: &str, bytes: &[u8]) -> bool {
    let words = words_of(alloc, words);
    let file = numbered(alloc, length);
    let mut store = MemStore::new(alloc, Vec::new(alloc));
    let so = store.put("in.pcm", &file).is_ok()
        && is_made(made(alloc, &mut store, &words), line, bytes) == Some(true);
    drop(words);
    drop(file);
    drop(store);
    so
}

// Adds a number in digits, or as many of them as there is memory for.
fn add_number(text: &mut String, number: u32) {
    let mut place: u32 = 1_000_000_000;
    for _ in 0..10 {
        if number >= place || place == 1 {
            let digit = (number / place.max(1) % 10) as u8;
            let _added = text.push(char::from(b'0' + digit));
        }
        place = place / 10;
    }
}

/// A form in which `#` stands for the next of some numbers, or as much of it as there is memory for.
fn filled(alloc: Global, form: &str, numbers: &[u32]) -> String {
    let mut text = String::new(alloc);
    let mut next: usize = 0;
    for letter in form.chars() {
        if letter == '#' {
            add_number(&mut text, numbers.get(next).copied().unwrap_or(0));
            next = next.saturating_add(1);
        } else {
            let _added = text.push(letter);
        }
    }
    text
}

/// A recording: how many frames there are, the room of the block, and the sizes of a supply and of a read.
type Recording = (u8, u32, u32, u32);

/// No frame, one, a supply that ends early, odd and equal sizes, sizes larger than the file.
const RECORDINGS: &[Recording] = &[
    (10, 4, 3, 2),
    (0, 4, 3, 2),
    (1, 1, 1, 1),
    (20, 1, 1, 1),
    (21, 5, 5, 5),
    (40, 8, 3, 1),
    (33, 7, 8, 9),
    (50, 1, 7, 3),
    (60, 9, 1, 4),
    (100, 16, 5, 3),
    (40, 8192, 1024, 1024),
];

/// Whether a recording is as the plain one.
fn is_recorded(alloc: Global, (count, room, supply, read): Recording) -> bool {
    let want = plain_record(
        alloc,
        count,
        (room as usize, supply as usize, read as usize),
    );
    let heard = u32::try_from(want.len() / 4).unwrap_or(0);
    let lost = u32::from(count).saturating_sub(heard);
    let words = filled(alloc, "record in.pcm out.pcm # # #", &[room, supply, read]);
    let told = [u32::from(count), heard, lost];
    let line = filled(alloc, "supplied # read # lost #\n", &told);
    let length = 4 * usize::from(count);
    let so = makes(alloc, words.as_str(), length, line.as_str(), &want);
    drop(want);
    drop(words);
    drop(line);
    so
}

#[test]
fn recordings_are_as_the_plain_one(rt: HostRuntime) {
    for (number, recording) in RECORDINGS.iter().enumerate() {
        assert!(rt; is_recorded(rt.alloc(), *recording), "{number}");
    }
}

/// A loop of 20 frames: the frames of a call, the calls, the start, the end and the count, and whether its places fit the buffer.
type Loop = (u32, u32, u32, u32, u32, bool);

/// Loops of 15 and of 16 frames, of the whole buffer, without jumps, with one, with more and without end, and starts and ends that a buffer doesn't have.
const LOOPS: &[Loop] = &[
    (8, 5, 2, 18, 1, true),
    (8, 5, 2, 17, 1, false),
    (1, 80, 0, 16, 2, true),
    (7, 20, 0, 20, 1, true),
    (64, 3, 0, 20, u32::MAX, true),
    (16, 9, 4, 20, 3, true),
    (1024, 2, 3, 19, 200, true),
    (9, 4, 7, 0, 0, true),
    (9, 4, 20, 5, 0, true),
    (9, 4, 21, 5, 0, false),
    (9, 4, u32::MAX, 0, 0, false),
    (5, 3, 18, 2, 1, false),
    (5, 3, 5, 21, 1, false),
    (5, 3, 0, u32::MAX, u32::MAX, false),
    (5, 3, u32::MAX, u32::MAX, u32::MAX, false),
];

/// Whether a loop is as the plain one.
fn is_looped(alloc: Global, played: &Loop) -> bool {
    let (places, calls, start, end, count, fits) = *played;
    let size = if fits { 20 } else { 0 };
    let mut want = Vec::new(alloc);
    let taken = plain_loop(&mut want, size, (places, calls), (start, end, count));
    let numbers = [places, calls, start, end, count];
    let words = filled(alloc, "loop in.pcm out.pcm # # # # #", &numbers);
    let told = [calls, taken, u32::from(!fits)];
    let line = filled(alloc, "cycles # filled # shut #\n", &told);
    let so = makes(alloc, words.as_str(), 80, line.as_str(), &want);
    drop(want);
    drop(words);
    drop(line);
    so
}

#[test]
fn loops_are_as_the_plain_one(rt: HostRuntime) {
    for (number, played) in LOOPS.iter().enumerate() {
        assert!(rt; is_looped(rt.alloc(), played), "{number}");
    }
}
