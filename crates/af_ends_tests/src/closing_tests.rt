//! How ends are closed: in pairs, out of turn, and beside ends of others.
use af_base::Frame;
use af_ends::{
    CaptureEnd, ListenerEnd, StreamClient, StreamServer, close, open_record, open_static,
    open_stream,
};
use std::alloc::Global;
use std::mem::drop;
use std::test::*;

const SOME: [Frame; 3] = [Frame { left: 1, right: 2 }; 3];

// Three frames are written, and up to two are read.
fn write_and_read(client: &mut StreamClient, server: &mut StreamServer) {
    let mut out = SOME;
    let _written = client.write(&SOME);
    let _read = server.read(&mut out[..2]);
}

// How many frames a stream released and consumed in its whole life.
fn lived(alloc: Global) -> Option<(u64, u64)> {
    let (mut client, mut server) = open_stream(alloc, 4).ok()?;
    write_and_read(&mut client, &mut server);
    let lived = close(client, server).ok()?;
    let counts = (lived.released(), lived.consumed());
    drop(lived);
    Some(counts)
}

#[test]
fn both_ends_of_a_stream_meet(rt: HostRuntime) {
    assert!(rt; lived(rt.alloc()) == Some((3, 2)));
}

// A server that is closed with the client of another stream is given back.
fn close_with_other(alloc: Global, server: StreamServer) -> Option<StreamServer> {
    let (other, its_own) = open_stream(alloc, 4).ok()?;
    drop(its_own);
    close(other, server).err()
}

// A server whose client is open is given back, and so is one that is closed with the client of another stream. After its own client it is closed.
fn given_back(alloc: Global) -> Option<bool> {
    let (client, server) = open_stream(alloc, 4).ok()?;
    let Some(server) = server.close().err() else {
        drop(client);
        return None;
    };
    let Some(server) = close_with_other(alloc, server) else {
        drop(client);
        return None;
    };
    client.close();
    Some(server.close().is_ok())
}

#[test]
fn a_server_alone_is_given_back(rt: HostRuntime) {
    assert!(rt; given_back(rt.alloc()) == Some(true));
}

// Three frames are supplied, and up to one is read.
fn supply_and_read(capture: &mut CaptureEnd, listener: &mut ListenerEnd) {
    let mut out = SOME;
    let _supplied = capture.supply(&SOME);
    let _read = listener.read(&mut out[..1]);
}

// The same of a recording: how many frames were supplied, lost and read.
fn recorded(alloc: Global) -> Option<(u64, u64, u64)> {
    let (mut capture, mut listener) = open_record(alloc, 2).ok()?;
    supply_and_read(&mut capture, &mut listener);
    let Some(listener) = listener.close().err() else {
        drop(capture);
        return None;
    };
    capture.close();
    let recorded = listener.close().ok()?;
    let counts = (recorded.supplied(), recorded.overrun(), recorded.total());
    drop(recorded);
    Some(counts)
}

#[test]
fn both_ends_of_a_recording_meet(rt: HostRuntime) {
    assert!(rt; recorded(rt.alloc()) == Some((3, 1, 1)));
}

// The same of a static buffer.
fn played(alloc: Global) -> Option<bool> {
    let (setter, player) = open_static(alloc, &SOME).ok()?;
    let Some(player) = player.close().err() else {
        drop(setter);
        return None;
    };
    setter.close();
    Some(player.close().is_ok())
}

#[test]
fn both_ends_of_a_static_buffer_meet(rt: HostRuntime) {
    assert!(rt; played(rt.alloc()) == Some(true));
}
