//! The calls of a stream's two ends, as tables.
use crate::stream_calls::{Answer, Call, ask_client, ask_server, is_client};
use af_ends::{EndError, StreamClient, StreamServer, open_stream};
use std::alloc::Global;
use std::mem::drop;
use std::test::*;

// Whether the calls answer as the table says.
fn all_answer(
    client: &mut StreamClient,
    server: &mut StreamServer,
    table: &[(Call, Answer)],
) -> bool {
    for (call, answer) in table {
        let found = if is_client(call) {
            ask_client(client, call)
        } else {
            ask_server(server, call)
        };
        if found != *answer {
            return false;
        }
    }
    true
}

// The same on a new stream for four frames.
fn answers(alloc: Global, table: &[(Call, Answer)]) -> Result<bool, EndError> {
    let (mut client, mut server) = open_stream(alloc, 4)?;
    let so = all_answer(&mut client, &mut server, table);
    drop(client);
    drop(server);
    Ok(so)
}

const THROUGH: &[(Call, Answer)] = &[
    (Call::Available, Answer::There(0)),
    (Call::Read(4), Answer::Took(0, [0; 4])),
    (Call::Write(1, 0), Answer::Word(0)),
    (Call::Write(1, 3), Answer::Word(3)),
    (Call::Read(0), Answer::Took(0, [0; 4])),
    (Call::Available, Answer::There(3)),
    (Call::Write(4, 3), Answer::Word(1)),
    (Call::Write(5, 3), Answer::Word(0)),
    (Call::Read(3), Answer::Took(3, [1, 2, 3, 0])),
    (Call::Write(5, 3), Answer::Word(3)),
    (Call::Read(4), Answer::Took(4, [4, 5, 6, 7])),
    (Call::Read(4), Answer::Took(0, [0; 4])),
];

#[test]
fn frames_go_through(rt: HostRuntime) {
    assert!(rt; answers(rt.alloc(), THROUGH) == Ok(true));
}

const FLUSHED: &[(Call, Answer)] = &[
    (Call::Write(1, 2), Answer::Word(2)),
    (Call::Flush, Answer::Word(1)),
    (Call::Write(3, 2), Answer::Word(2)),
    (Call::Read(4), Answer::Flushed(2)),
    (Call::Read(4), Answer::Took(2, [3, 4, 0, 0])),
    (Call::Flush, Answer::Word(2)),
    (Call::Available, Answer::Flushed(0)),
    (Call::Available, Answer::There(0)),
];

#[test]
fn a_flush_discards_what_was_released_before_it(rt: HostRuntime) {
    assert!(rt; answers(rt.alloc(), FLUSHED) == Ok(true));
}

const GAINS_AND_STATUS: &[(Call, Answer)] = &[
    (Call::Gains, Answer::Sides(0x1000, 0x1000)),
    (Call::SetGains(0x800, 0x400), Answer::Done),
    (Call::Gains, Answer::Sides(0x800, 0x400)),
    (
        Call::SetGains(0x1001, 0),
        Answer::Refused(EndError::Argument),
    ),
    (
        Call::SetGains(0, 0x1001),
        Answer::Refused(EndError::Argument),
    ),
    (Call::Gains, Answer::Sides(0x800, 0x400)),
    (Call::Status, Answer::Word(0)),
    (Call::SetStatus(514), Answer::Done),
    (Call::Status, Answer::Word(514)),
];

#[test]
fn gains_and_status_cross_the_stream(rt: HostRuntime) {
    assert!(rt; answers(rt.alloc(), GAINS_AND_STATUS) == Ok(true));
}

const FLAGS: &[(Call, Answer)] = &[
    (Call::Tally(0), Answer::Refused(EndError::Argument)),
    (Call::Clear, Answer::Word(0)),
    (Call::Tally(5), Answer::Done),
    (Call::Disable, Answer::Done),
    (Call::Clear, Answer::Word(0x09)),
    (Call::Clear, Answer::Word(0x01)),
    (Call::Write(1, 1), Answer::Word(1)),
    (Call::Invalidate, Answer::Done),
    (Call::Write(2, 1), Answer::Refused(EndError::Dead)),
    (Call::Read(4), Answer::Took(1, [1, 0, 0, 0])),
];

#[test]
fn flags_cross_the_stream(rt: HostRuntime) {
    assert!(rt; answers(rt.alloc(), FLAGS) == Ok(true));
}

// What an opening for so many frames answers.
fn opens(alloc: Global, frames: u32) -> Result<(), EndError> {
    let ends = open_stream(alloc, frames)?;
    drop(ends);
    Ok(())
}

#[test]
fn sizes_are_refused(rt: HostRuntime) {
    for frames in [0, 8_193, 65_536, u32::MAX] {
        assert!(rt;
            opens(rt.alloc(), frames) == Err(EndError::Argument),
            "{frames}"
        );
    }
    for frames in [1, 3, 8_192] {
        assert!(rt; opens(rt.alloc(), frames) == Ok(()), "{frames}");
    }
}

// How many flushes are answered until one is refused for good.
fn flush_all(client: &mut StreamClient) -> u32 {
    for _ in 0..1_000_000 {
        if client.flush().is_err() {
            break;
        }
    }
    match client.flush() {
        Err(EndError::Limit) => client.flushes(),
        _ => 0,
    }
}

// The same on a new stream.
fn flushes(alloc: Global, frames: u32) -> Result<u32, EndError> {
    let (mut client, server) = open_stream(alloc, frames)?;
    let count = flush_all(&mut client);
    drop(client);
    drop(server);
    Ok(count)
}

#[test]
fn flushes_come_to_an_end(rt: HostRuntime) {
    assert!(rt; flushes(rt.alloc(), 8_192) == Ok(131_071));
}
