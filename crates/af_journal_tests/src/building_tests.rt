//! Texts that are read and written again, what a journal says that was read, and texts that aren't read.
use crate::reading_tests::{script, text_with};
use af_base::{Cycle, Frame, Memory, Seen};
use af_journal::{JournalFault, read, read_front, write};
use af_model::Journal;
use af_script::Script;
use std::alloc::Global;
use std::mem::drop;
use std::test::Fail;

// How many lines of the text of all kinds of line are a text.
const WHOLE: [usize; 13] = [0, 1, 3, 11, 18, 20, 21, 25, 26, 27, 28, 29, 30];

// Texts, with the number of rounds, or with that of the first bad line.
const TEXTS: [(&str, usize, u64); 8] = [
    ("", 0, 0),
    ("R\n", 1, 0),
    ("R\nR\n", 2, 0),
    ("R\nR", 0, 2),
    ("R\nC 2\n", 0, 2),
    ("R\nN 8 1 0\nP 0\nm 0 268439552 0 4 f 1\n", 0, 5),
    ("R\nN 8 1 0\nP 0\nm 0 268439552 0 4 f 1\nR\n", 0, 5),
    ("R\nF\ny 1 0\nR\n", 0, 4),
];

// Texts, with whether nothing made their reader stop, and the number of rounds kept, of which the last one is made up if something did.
const FRONTS: [(&str, bool, usize); 8] = [
    ("", true, 0),
    ("R\nR\n", false, 3),
    ("R\nR\nR\n", false, 3),
    ("R\nR\nR\nR\nR\n", false, 3),
    ("R\nR\nR\nC 1\no 1 0 7\n", false, 3),
    ("R\nF\ny 0 1\ny 0 1\ny 0 1\ny 0 1\ny 0 1\nR\n", false, 2),
    ("R\nF\ny 0 1\ny 0 1\ny 0 1\ny 0 1\nR\nR\n", false, 3),
    (
        "R\nN 8 1 0\nq 1 0 0 e\nq 1 0 0 e\nq 1 0 0 e\nq 1 0 0 e\nq 1 0 0 e\nq 1 0 0 e\nq 1 0 0 e\nq 1 0 0 e\nq 1 0 0 e\nq 1 0 0 e\nq 1 0 0 e\nq 1 0 0 e\nq 1 0 0 e\nq 1 0 0 e\nq 1 0 0 e\nq 1 0 0 e\nq 1 0 0 e\nq 1 0 0 e\nq 1 0 0 e\nq 1 0 0 e\nq 1 0 0 e\nq 1 0 0 e\nq 1 0 0 e\nq 1 0 0 e\nq 1 0 0 e\nq 1 0 0 e\nq 1 0 0 e\nq 1 0 0 e\nq 1 0 0 e\nq 1 0 0 e\nq 1 0 0 e\nq 1 0 0 e\nq 1 0 0 e\nq 1 0 0 e\nq 1 0 0 e\nq 1 0 0 e\nq 1 0 0 e\nq 1 0 0 e\nq 1 0 0 e\nq 1 0 0 e\nq 1 0 0 e\nq 1 0 0 e\nq 1 0 0 e\nq 1 0 0 e\nq 1 0 0 e\nq 1 0 0 e\nq 1 0 0 e\nq 1 0 0 e\nq 1 0 0 e\nq 1 0 0 e\nq 1 0 0 e\nq 1 0 0 e\nq 1 0 0 e\nq 1 0 0 e\nq 1 0 0 e\nq 1 0 0 e\nq 1 0 0 e\nq 1 0 0 e\nq 1 0 0 e\nq 1 0 0 e\nq 1 0 0 e\nq 1 0 0 e\nq 1 0 0 e\nq 1 0 0 e\nq 1 0 0 e\nP 0\nR\n",
        false,
        2,
    ),
];

// Whether a text is read for two tracks, and written as it was.
fn comes_back(alloc: Global, script: &Script, text: &[u8]) -> bool {
    let Ok(journal) = read(alloc, text, script) else {
        return false;
    };
    let mut out = Vec::new(alloc);
    let written = write(alloc, &journal, &mut out).is_ok();
    let told = journal.tracks() == 2;
    drop(journal);
    written && told && out.as_slice() == text
}

// Whether the first lines of the text of all kinds of line do.
fn lines_come_back(alloc: Global, script: &Script, count: usize) -> Result<bool, Memory> {
    let text = text_with(alloc, count, 30, "")?;
    Ok(comes_back(alloc, script, text.as_bytes()))
}

// How many rounds a text has for the script, or else the number of its first bad line.
fn outcome(alloc: Global, script: &Script, text: &str) -> Result<(usize, u64), Memory> {
    match read(alloc, text.as_bytes(), script) {
        Ok(journal) => Ok((journal.rounds(), 0)),
        Err(JournalFault::Line { number }) => Ok((0, number)),
        Err(JournalFault::Memory) => Err(Memory),
    }
}

// Whether all of a text is kept, and how many rounds are.
fn kept(alloc: Global, script: &Script, text: &str) -> Result<(bool, usize), Memory> {
    match read_front(alloc, text.as_bytes(), script) {
        Ok(front) => Ok((front.whole, front.journal.rounds())),
        Err(_) => Err(Memory),
    }
}

// How many texts are kept so far, up to the first that isn't.
fn fronts_kept(alloc: Global, script: &Script) -> usize {
    for (i, (text, whole, rounds)) in FRONTS.iter().enumerate() {
        if kept(alloc, script, text) != Ok((*whole, *rounds)) {
            return i;
        }
    }
    FRONTS.len()
}

// How many counts of lines come back, up to the first that doesn't.
fn lines_written(alloc: Global, script: &Script) -> usize {
    for (i, count) in WHOLE.iter().enumerate() {
        if lines_come_back(alloc, script, *count) != Ok(true) {
            return i;
        }
    }
    WHOLE.len()
}

// How many texts have those rounds, or that bad line, up to the first that hasn't.
fn texts_read(alloc: Global, script: &Script) -> usize {
    for (i, (text, rounds, number)) in TEXTS.iter().enumerate() {
        if outcome(alloc, script, text) != Ok((*rounds, *number)) {
            return i;
        }
    }
    TEXTS.len()
}

#[test]
fn texts_are_read_and_come_back(rt: HostRuntime) -> Result<(), Fail> {
    let script = script(rt.alloc())?;
    let fronts = fronts_kept(rt.alloc(), &script);
    let whole = lines_written(rt.alloc(), &script);
    let texts = texts_read(rt.alloc(), &script);
    drop(script);
    let all = (FRONTS.len(), WHOLE.len(), TEXTS.len());
    assert!(rt; (fronts, whole, texts) == all, "{fronts} {whole} {texts}");
    Ok(())
}

// Whether a journal has the rounds of the whole text, with as many calls and entries.
fn tells_rounds(journal: &Journal) -> bool {
    if journal.rounds() != 3 || journal.tracks() != 2 {
        return false;
    }
    journal.client(0, 0).len() == 7
        && journal.client(0, 1).len() == 1
        && journal.cycles(0) == (0, 2)
        && journal.cycles(1) == (2, 0)
}

// Whether a journal has the first entry of the whole text, and its frame.
fn tells_entry(journal: &Journal) -> bool {
    let log = journal.log();
    let Some(entry) = log.entry(0) else {
        return false;
    };
    log.frames() == [Frame { left: 0, right: 0 }].as_slice()
        && (entry.state, entry.cycle, entry.mono) == (1, Cycle::Mixed, 2)
        && entry.slots[1].seen == Seen::Shut { front: 9, rear: 4 }
        && entry.slots[2].seen == Seen::Absent
}

// Whether a journal has the turn of its first round: a status, and a take with its frame.
fn tells_turn(journal: &Journal) -> bool {
    if journal.rounds() == 0 {
        return false;
    }
    let Some(turn) = journal.turn(0) else {
        return false;
    };
    let Some(track) = turn.tracks.as_slice().first() else {
        return false;
    };
    let Some(take) = turn.mixes.as_slice().first() else {
        return false;
    };
    track.status == Some(258) && take.frames.as_slice() == [Frame { left: -1, right: 1 }].as_slice()
}

// Whether the journal of a text has all of that.
fn is_told(alloc: Global, script: &Script, text: &[u8]) -> bool {
    let Ok(journal) = read(alloc, text, script) else {
        return false;
    };
    let told = tells_rounds(&journal) && tells_entry(&journal) && tells_turn(&journal);
    drop(journal);
    told
}

// Whether the journal of the whole text does.
fn text_is_told(alloc: Global, script: &Script) -> Result<bool, Memory> {
    let text = text_with(alloc, 30, 30, "")?;
    Ok(is_told(alloc, script, text.as_bytes()))
}

#[test]
fn a_journal_says_what_its_text_said(rt: HostRuntime) -> Result<(), Fail> {
    let script = script(rt.alloc())?;
    let told = text_is_told(rt.alloc(), &script);
    drop(script);
    assert!(rt; told == Ok(true));
    Ok(())
}
