//! What is found of journals and their sounds: legal ones, and each kind of damage.
use crate::words::numbered;
use af_io::MemStore;
use af_offline::{Stop, judge, load_case};
use std::alloc::Global;
use std::mem::drop;
use std::test::*;

/// One track that plays two frames to their end, with more cycles than it can take.
const WHOLE: &str =
    "version = 1\nframes = 2\nnormal = 1\ncycles = 2000\n[[track]]\nkind = \"fast\"\nframes = 8\nchannels = 2\nfile = \"in.pcm\"\nops = [\"open\", \"start\", \"write 2\", \"stop\", \"drain\", \"remove\"]\n";

/// A journal of a play of that script: up to its first cycle, one quiet cycle of fifteen, what comes before eight more, and what comes behind them.
const FIRST: &str =
    "R\nC 0\ns 0 1 0\ns 0 2 0\nt 0\nN 8 1 1\nq 0 0 0 e\nP 0\nF\ny 0 1\nR\nC 0\nt 514\np 0 2\nk 0\ns 4 4 2\nt 514\nN 8 1 2\nq 0 0 4 f 2\nh 0000000100000000\nq 0 0 4 f 2\nh 0000000200000000\nq 0 0 4 e\na 0 514\nP 1 1\nF\ny 0 1\nR\nC 0\nt 514\nN 8 1 7\nq 0 0 6 f 2\nh 0000000400000002\nq 0 0 6 e\na 0 791\nP 0\nF\ny 1 0\nz 0 4096 0 268439552 0 0 e\nz 1 4096 0 268439552 0 2 f 2\nh 0001000100020002\n";

const QUIET: &str = "y 1 0\nz 0 4096 0 268439552 0 0 e\nz 1 4096 0 268439552 0 2 e\n";

const MIDDLE: &str = "R\nC 0\nt 792\ns 6 6 0\nN 8 1 25\nq 0 0 6 e\na 0 792\nP 1 2\nF\n";

const LAST: &str =
    "y 2 2\nR\nN 8 1 28\nq 0 0 8 f 2\nh 0000000600000000\nq 0 0 8 e\na 0 1048\nP 1 3\nF\ny 2 1\nR\nN 8 0 28\nP 0\nF\ny 3 3\nR\nE\n";

/// What comes before sixteen silent cycles in a journal of a track without frames, one of them, and what comes behind them.
const BEGUN: &str =
    "R\nC 0\ns 0 1 0\ns 0 2 0\nt 0\nN 8 1 0\nq 0 0 2 f 2\nh 0000000100000000\nq 0 0 4 f 2\nh 0000000200000000\nq 0 0 4 e\na 0 514\nP 1 1\nF\ny 0 1\nR\nC 0\nt 514\ns 4 4 0\nt 514\nN 8 1 1\nq 0 0 6 f 2\nh 0000000400000000\nq 0 0 6 e\na 0 791\nP 0\nF\n";

const STILL: &str = "y 1 0\nz 0 4096 0 268439552 0 0 e\nz 1 4096 0 268439552 0 0 e\n";

const ENDED: &str =
    "R\nC 0\nt 792\ns 6 6 0\nN 8 1 17\nq 0 0 6 e\na 0 792\nP 1 2\nF\ny 2 2\nR\nN 8 1 18\nq 0 0 8 f 2\nh 0000000600000000\nq 0 0 8 e\na 0 1048\nP 1 3\nF\ny 3 3\nR\nE\n";

/// The script of that track without frames.
const EMPTY: &str =
    "version = 1\nframes = 2\nnormal = 1\ncycles = 1024\n[[track]]\nkind = \"fast\"\nframes = 8\nchannels = 2\nfile = \"in.pcm\"\nops = [\"open\", \"start\", \"stop\", \"drain\", \"remove\"]\n";

/// A script of two tracks, of which one starts a turn later.
const LATE: &str =
    "version = 1\nframes = 2\nnormal = 1\ncycles = 300\n[[track]]\nkind = \"fast\"\nframes = 4\nchannels = 2\nfile = \"in.pcm\"\nops = [\"open\", \"start\"]\n[[track]]\nkind = \"fast\"\nframes = 4\nchannels = 2\nfile = \"in.pcm\"\nops = [\"open\", \"yield\", \"start\", \"write 1\", \"stop\", \"drain\"]\n";

/// A journal of two tracks that no order of a play makes. The later track is attached in round 1, whose push is Busy; the normal mixer's turn of round 2 pushes its state, and loads the report of the entries behind that push. What comes before sixteen silent cycles, before fifteen more, and behind them.
const ATTACHED: &str =
    "R\nC 0\ns 0 1 0\ns 0 2 0\nt 0\nC 1\ns 0 1 0\nN 8 1 1\nq 0 0 4 f 2\nh 0000000100000000\nq 0 0 4 f 2\nh 0000000200000000\nq 0 0 4 e\na 0 514\nq 1 0 2 f 2\nh 0000000100000000\nq 1 0 2 e\na 1 257\nP 1 1\nF\ny 0 1\nR\nC 0\nt 514\ns 4 6 0\nC 1\ns 2 2 0\nt 257\nN 8 0 1\nq 0 0 6 f 2\nh 0000000600000000\nq 0 0 6 e\na 0 770\nq 1 0 4 f 2\nh 0000000200000000\nq 1 0 4 e\na 1 514\nP 2 0 1\nF\n";

const LOADED: &str =
    "R\nC 1\nt 514\np 0 1\nk 0\ns 4 4 1\nt 514\nN 8 1 33\nq 1 0 6 f 2\nh 0000000400000001\nq 1 0 6 e\na 1 791\nP 1 2\nF\ny 2 0\nz 0 4096 0 268439552 0 0 e\nz 2 4096 0 268439552 0 1 f 1\nh 00010001\n";

const TAKEN: &str = "y 2 0\nz 0 4096 0 268439552 0 0 e\nz 2 4096 0 268439552 0 1 e\n";

const LEFT: &str =
    "R\nC 1\nt 791\nN 8 1 33\nq 1 0 6 e\na 1 792\nP 1 3\nF\ny 3 2\nR\nC 1\nt 792\ns 6 6 0\nN 8 1 34\nq 1 0 8 f 2\nh 0000000600000000\nq 1 0 8 e\na 1 1048\nP 1 4\nF\ny 4 3\nR\nE\n";

/// A played session: its script, the bytes of its file, the silent bytes of its sound that come before them, and all bytes of its sound.
type Session<'a> = (&'a str, usize, usize, usize);

const HEARD_SESSION: Session<'static> = (WHOLE, 8, 0, 192);

const UNHEARD_SESSION: Session<'static> = (EMPTY, 0, 0, 128);

const LATE_SESSION: Session<'static> = (LATE, 4, 128, 256);

/// So many bytes of a journal, from a place on, replaced by a text, and what is found then.
type Damage<'a> = (usize, usize, &'a str, &'a str);

/// Adds a text so many times, or as often as there is memory for.
fn add(text: &mut Vec<u8>, part: &str, times: usize) {
    for _ in 0..times {
        let _added = text.extend_from_slice(part.as_bytes());
    }
}

/// A text of parts, each so many times.
fn text_of(alloc: Global, parts: &[(&str, usize)]) -> Vec<u8> {
    let mut text = Vec::new(alloc);
    for (part, times) in parts {
        add(&mut text, part, *times);
    }
    text
}

/// The parts of the journal.
const WHOLE_PARTS: &[(&str, usize)] = &[
    (FIRST, 1),
    (QUIET, 15),
    (MIDDLE, 1),
    (QUIET, 8),
    (LAST, 1),
];

/// The parts of the other journal.
const SILENT_PARTS: &[(&str, usize)] = &[(BEGUN, 1), (STILL, 16), (ENDED, 1)];

/// The parts of the journal of two tracks.
const LATE_PARTS: &[(&str, usize)] = &[
    (ATTACHED, 1),
    (STILL, 16),
    (LOADED, 1),
    (TAKEN, 15),
    (LEFT, 1),
];

/// A text in which so many bytes from a place on are replaced.
fn damaged(alloc: Global, whole: &[u8], place: usize, length: usize, new: &str) -> Vec<u8> {
    let mut text = Vec::new(alloc);
    let behind = place.saturating_add(length);
    let _front = text.extend_from_slice(whole.get(..place).unwrap_or(&[]));
    let _new = text.extend_from_slice(new.as_bytes());
    let _rest = text.extend_from_slice(whole.get(behind..).unwrap_or(&[]));
    text
}

/// The sound of a session: its frames, and before and behind them silence.
fn sound_of(alloc: Global, (_, length, before, bytes): Session<'_>) -> Vec<u8> {
    let frames = numbered(alloc, length);
    let mut sound = Vec::new(alloc);
    add(&mut sound, "\0", before);
    let _frames = sound.extend_from_slice(&frames);
    drop(frames);
    let rest = bytes.saturating_sub(sound.len());
    add(&mut sound, "\0", rest);
    sound
}

/// Puts a session, its sound and a journal: whether there was memory.
fn put(alloc: Global, store: &mut MemStore, session: Session<'_>, journal: &[u8]) -> bool {
    let sound = sound_of(alloc, session);
    let file = numbered(alloc, session.1);
    let so = store.put("one.toml", session.0.as_bytes()).is_ok()
        && store.put("in.pcm", &file).is_ok()
        && store.put("out.pcm", &sound).is_ok()
        && store.put("out.txt", journal).is_ok();
    drop(sound);
    drop(file);
    so
}

/// What is found in a store, or what stopped it.
fn verified(alloc: Global, store: &mut MemStore) -> Result<String, Stop> {
    let case = load_case(alloc, store, "one.toml", "out.pcm", "out.txt")?;
    let found = judge(alloc, &case);
    drop(case);
    found
}

/// The line of what was found, if there is memory.
fn line_told(alloc: Global, found: Result<String, Stop>) -> String {
    match found {
        Ok(line) => line,
        Err(Stop::Over(ending)) => { format!(in alloc; "{ending}").unwrap_or(String::new(alloc)) }
        Err(_) => String::new(alloc),
    }
}

/// Whether a line says that a journal is legal, or that it is refused for this.
fn says(line: &str, found: &str) -> bool {
    if found == "legal" {
        return line == "legal\n";
    }
    match line.strip_prefix("refused: ") {
        Some(rest) => rest.strip_suffix("\n") == Some(found),
        None => false,
    }
}

/// Whether this is found in a store.
fn is_told(alloc: Global, store: &mut MemStore, found: &str) -> bool {
    let line = line_told(alloc, verified(alloc, store));
    let so = says(line.as_str(), found);
    drop(line);
    so
}

/// Whether this is found of a session with a journal.
fn is_found(alloc: Global, session: Session<'_>, journal: &[u8], found: &str) -> bool {
    let mut store = MemStore::new(alloc, Vec::new(alloc));
    let so = put(alloc, &mut store, session, journal) && is_told(alloc, &mut store, found);
    drop(store);
    so
}

/// How many damages of a session's journal are found as they must be, up to one that isn't.
fn count_found(
    alloc: Global,
    session: Session<'_>,
    parts: &[(&str, usize)],
    damages: &[Damage<'_>],
) -> usize {
    let mut count: usize = 0;
    let whole = text_of(alloc, parts);
    for (place, length, new, found) in damages {
        let journal = damaged(alloc, &whole, *place, *length, new);
        let so = is_found(alloc, session, &journal, found);
        drop(journal);
        if !so {
            break;
        }
        count = count.saturating_add(1);
    }
    drop(whole);
    count
}

/// Each kind of line damaged, one left out, and cuts before each round and behind the last; and what a damage that no reader can see leaves: a legal journal.
const DAMAGES: &[Damage<'static>] = &[
    (0, 2, "", "line 1"),
    (2, 4, "C 1\n", "line 2"),
    (6, 8, "s 0 3 0\n", "round 0 party 0"),
    (14, 8, "s 0 2 1\n", "round 0 party 0"),
    (14, 8, "", "round 0 party 0"),
    (62, 6, "t 2\n", "round 1 party 0"),
    (68, 6, "p 0 1\n", "round 1 party 0"),
    (74, 4, "k 1\n", "legal"),
    (74, 4, "", "round 1 party 0"),
    (26, 8, "N 7 1 1\n", "round 0 party 1"),
    (92, 8, "N 8 0 2\n", "round 1 party 1"),
    (206, 8, "N 8 1 8\n", "legal"),
    (1270, 9, "N 8 1 1\n", "round 3 party 1"),
    (100, 12, "q 0 0 4 e\n", "line 20"),
    (112, 19, "h 0000000200000000\n", "round 1 party 0"),
    (331, 19, "h 0001000100030003\n", "round 2 party 0"),
    (172, 8, "a 0 515\n", "round 1 party 0"),
    (180, 6, "P 0\n", "round 1 party 1"),
    (1297, 6, "P 1 3\n", "round 3 party 1"),
    (48, 2, "", "line 9"),
    (50, 6, "y 0 2\n", "round 0 party 2"),
    (269, 6, "y 2 0\n", "round 2 party 1"),
    (1883, 6, "y 3 1\n", "round 5 party 2"),
    (275, 27, "z 0 4096 0 268439552 0 0 f 1\n", "line 40"),
    (383, 27, "z 1 4096 0 268439552 0 4 e\n", "round 2 party 0"),
    (383, 27, "", "round 2 party 2"),
    (1891, 2, "", "round 6 party 1"),
    (1891, 2, "N 8 1 28\nP 0\n", "round 6 party 1"),
    (1889, 4, "", "round 6 party 1"),
    (1892, 1, "", "line 136"),
    (56, 1837, "", "round 1 party 0"),
    (194, 1699, "", "round 2 party 0"),
    (1250, 643, "", "round 3 party 0"),
    (1791, 102, "", "round 4 party 1"),
    (1866, 27, "", "round 5 party 1"),
];

/// The other journal, cut before each round and in its last line, and with another kind of its last entry.
const CUTS: &[Damage<'static>] = &[
    (0, 1317, "", "round 0 party 0"),
    (128, 1189, "", "round 1 party 0"),
    (1177, 140, "", "round 2 party 0"),
    (1238, 79, "", "round 3 party 1"),
    (1313, 4, "", "round 4 party 1"),
    (1307, 6, "y 3 1\n", "round 3 party 2"),
    (1316, 1, "", "line 96"),
];

/// The journal of two tracks, with other reports that its turn loads, and with other words of the status that it stores: it hears of the frame by the track that its draft has in the slot.
const REPORTS: &[Damage<'static>] = &[
    (0, 0, "", "legal"),
    (1339, 9, "N 8 1 18\n", "legal"),
    (1339, 9, "N 8 1 17\n", "round 2 party 2"),
    (1339, 9, "N 8 1 34\n", "round 2 party 2"),
    (1389, 8, "a 1 774\n", "round 2 party 2"),
    (1389, 8, "a 1 775\n", "round 2 party 2"),
];

/// A journal as it is, which is legal.
const LEGAL: &[Damage<'static>] = &[(0, 0, "", "legal")];

/// A journal as it is, with a byte of sound too much.
const HEARD_LONGER: &[Damage<'static>] = &[(0, 0, "", "pcm 192")];

const UNHEARD_LONGER: &[Damage<'static>] = &[(0, 0, "", "pcm 128")];

/// What is found of a journal with each of some damages.
type Case<'a> = (Session<'a>, &'a [Damage<'a>]);

/// The journal is legal, with one byte more its sound is refused at its end, and so is each damage.
const HEARD: &[Case<'static>] = &[
    (HEARD_SESSION, LEGAL),
    ((WHOLE, 8, 0, 193), HEARD_LONGER),
    (HEARD_SESSION, DAMAGES),
];

/// The same of the other journal.
const UNHEARD: &[Case<'static>] = &[
    (UNHEARD_SESSION, LEGAL),
    ((EMPTY, 0, 0, 129), UNHEARD_LONGER),
    (UNHEARD_SESSION, CUTS),
];

#[test]
fn damaged_journals(rt: HostRuntime) {
    for (session, damages) in HEARD {
        let found = count_found(rt.alloc(), *session, WHOLE_PARTS, damages);
        assert!(rt; found == damages.len(), "{found}");
    }
}

#[test]
fn silent_journals_that_are_cut(rt: HostRuntime) {
    for (session, damages) in UNHEARD {
        let found = count_found(rt.alloc(), *session, SILENT_PARTS, damages);
        assert!(rt; found == damages.len(), "{found}");
    }
}

#[test]
fn reports_of_a_later_track(rt: HostRuntime) {
    let found = count_found(rt.alloc(), LATE_SESSION, LATE_PARTS, REPORTS);
    assert!(rt; found == REPORTS.len(), "{found}");
}
