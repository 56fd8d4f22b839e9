//! A client from its first op to its last, and one whose block is dead.
use af_base::ClientCall;
use af_runs::{Client, ClientCommand, Want};
use af_script::Op;
use std::test::Fail;

const OPS: [Op; 7] = [
    Op::OpenTrack,
    Op::Start,
    Op::Write { count: 3 },
    Op::Yield,
    Op::Stop,
    Op::Drain,
    Op::Remove,
];

const SENT: ClientCall = ClientCall::Sent {
    front: 0,
    code: 0,
    argument: 0,
};

const OPEN: Option<Want> = Some(Want::Send {
    command: ClientCommand::Open,
});

const START: Option<Want> = Some(Want::Send {
    command: ClientCommand::Start,
});

const STOP: Option<Want> = Some(Want::Send {
    command: ClientCommand::Stop,
});

const REMOVE: Option<Want> = Some(Want::Send {
    command: ClientCommand::Remove,
});

// What is wanted and how it is answered; if nothing is wanted, the turn ends and the answer is none. The START is settled in the second turn, a START is owed after the first Put, and the yield ends that turn.
const LIFE: [(Option<Want>, ClientCall); 17] = [
    (OPEN, SENT),
    (START, SENT),
    (Some(Want::Settled), ClientCall::Status { word: 0x102 }),
    (None, SENT),
    (Some(Want::Settled), ClientCall::Status { word: 0x202 }),
    (
        Some(Want::Write { count: 3 }),
        ClientCall::Put { front: 0, count: 2 },
    ),
    (Some(Want::Clear), ClientCall::Cleared { flags: 9 }),
    (START, SENT),
    (
        Some(Want::Write { count: 1 }),
        ClientCall::Put { front: 0, count: 1 },
    ),
    (Some(Want::Clear), ClientCall::Cleared { flags: 1 }),
    (None, SENT),
    (STOP, ClientCall::SendFull { front: 0 }),
    (None, SENT),
    (STOP, SENT),
    (Some(Want::Drained), ClientCall::Status { word: 0x408 }),
    (REMOVE, SENT),
    (None, SENT),
];

// The write finds INVALID: what is left is a last REMOVE, however it is answered.
const DEAD: [(Option<Want>, ClientCall); 6] = [
    (OPEN, SENT),
    (START, SENT),
    (Some(Want::Settled), ClientCall::Status { word: 0x202 }),
    (
        Some(Want::Write { count: 3 }),
        ClientCall::Dead { flags: 4 },
    ),
    (Some(Want::Leave), ClientCall::SendFull { front: 0 }),
    (None, SENT),
];

// Whether a client wants these, one after the other, and has ended then.
fn lives(steps: &[(Option<Want>, ClientCall)]) -> bool {
    let mut client = Client::new();
    let mut sent = 0u8;
    for (wanted, call) in steps {
        client.begin(&OPS);
        let next = client.next();
        if next != *wanted {
            return false;
        }
        if next.is_none() {
            client.end_turn(&OPS, false);
            continue;
        }
        if matches!(call, ClientCall::Sent { .. }) {
            sent = sent.wrapping_add(1);
        }
        client.note(&OPS, u64::from(sent), *call);
    }
    client.has_ended()
}

#[test]
fn a_client_from_its_first_op_to_its_last(rt: HostRuntime) -> Result<(), Fail> {
    assert!(rt; lives(&LIFE));
    assert!(rt; lives(&DEAD));
    Ok(())
}
