//! The calls of a stream's two ends, as the tests' tables name them.
use crate::frames::{NOTHING, number};
use af_ends::{EndError, Found, StreamClient, StreamServer};

// A call.
#[derive(Clone, Copy)]
pub(crate) enum Call {
    // Writes so many frames, up to four, with the numbers from the first on as their words.
    Write(u32, usize),
    Flush,
    SetGains(u16, u16),
    Status,
    Clear,
    // Reads to so many places, up to four.
    Read(usize),
    Available,
    Gains,
    Tally(u32),
    Invalidate,
    Disable,
    SetStatus(u32),
}

#[derive(Clone, Copy, PartialEq, Eq)]
pub(crate) enum Answer {
    // A count or a word.
    Word(u32),
    Done,
    Sides(u16, u16),
    // So many frames are there.
    There(u32),
    // So many frames were taken, and these words stand in the places then.
    Took(u32, [u32; 4]),
    // A flush discarded so many.
    Flushed(u32),
    Refused(EndError),
    // The call isn't one of this end.
    NotMade,
}

fn counted(answer: Result<u32, EndError>) -> Answer {
    match answer {
        Ok(count) => Answer::Word(count),
        Err(error) => Answer::Refused(error),
    }
}

fn done(answer: Result<(), EndError>) -> Answer {
    match answer {
        Ok(()) => Answer::Done,
        Err(error) => Answer::Refused(error),
    }
}

fn there(answer: Result<Found, EndError>) -> Answer {
    match answer {
        Ok(found) => match found.flushed {
            Some(dropped) => Answer::Flushed(dropped),
            None => Answer::There(found.frames),
        },
        Err(error) => Answer::Refused(error),
    }
}

fn write(client: &mut StreamClient, first: u32, count: usize) -> Answer {
    let mut frames = [NOTHING; 4];
    number(&mut frames, first);
    counted(client.write(&frames[..count.min(4)]))
}

fn read(server: &mut StreamServer, places: usize) -> Answer {
    let mut out = [NOTHING; 4];
    match there(server.read(&mut out[..places.min(4)])) {
        Answer::There(count) => Answer::Took(
            count,
            [out[0].pack(), out[1].pack(), out[2].pack(), out[3].pack()],
        ),
        other => other,
    }
}

// What a call of the client answers.
pub(crate) fn ask_client(client: &mut StreamClient, call: &Call) -> Answer {
    match *call {
        Call::Write(first, count) => write(client, first, count),
        Call::Flush => counted(client.flush()),
        Call::SetGains(left, right) => done(client.set_gains(left, right)),
        Call::Status => Answer::Word(client.status()),
        Call::Clear => Answer::Word(client.clear_disabled()),
        _ => Answer::NotMade,
    }
}

// What a call of the server answers.
pub(crate) fn ask_server(server: &mut StreamServer, call: &Call) -> Answer {
    match *call {
        Call::Read(places) => read(server, places),
        Call::Available => there(server.available()),
        Call::Gains => {
            let gains = server.gains();
            Answer::Sides(gains.left(), gains.right())
        }
        Call::Tally(missing) => done(server.tally(missing)),
        Call::Invalidate => {
            server.invalidate();
            Answer::Done
        }
        Call::Disable => {
            server.disable();
            Answer::Done
        }
        Call::SetStatus(word) => {
            server.set_status(word);
            Answer::Done
        }
        _ => Answer::NotMade,
    }
}

pub(crate) fn is_client(call: &Call) -> bool {
    matches!(
        call,
        Call::Write(_, _) | Call::Flush | Call::SetGains(_, _) | Call::Status | Call::Clear
    )
}
