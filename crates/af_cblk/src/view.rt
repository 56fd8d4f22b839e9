//! What a seat at the table knows. Contracts alone see values of these types.
use af_base::{ClientEvent, HandEvent, ServerEvent};
use af_model::Shape;
use std::collections::LinkedList;

/// What a client has done, and what it knows. No value of it is made.
pub struct ClientPart {
    pub shape: Shape,
    /// The client's events, oldest first.
    pub events: LinkedList<ClientEvent>,
    /// The words of the frames that were released, oldest first.
    pub frames: LinkedList<u32>,
    /// The frames whose cells were stored: the number of each, counted from the base on, and its word, newest first.
    pub stored: LinkedList<(u64, u32)>,
    /// The front last seen.
    pub front: u32,
    /// The client's position at its last flush, and 0 before any.
    pub flush_at: u64,
    /// The server's events at the client's last meeting with it.
    pub learnt: LinkedList<ServerEvent>,
}

/// What a server has done, and what it knows. No value of it is made.
pub struct ServerPart {
    pub shape: Shape,
    /// The server's events, oldest first.
    pub events: LinkedList<ServerEvent>,
    /// The words of the frames that were taken, oldest first.
    pub frames: LinkedList<u32>,
    /// The flush word last seen.
    pub flush: u32,
    /// A new flush word was seen, and nothing was dropped since.
    pub noticed: bool,
    /// The rear last seen.
    pub rear: u32,
    /// The rear was seen after that flush word, if that was new.
    pub rear_after: bool,
    /// The front last seen or stored.
    pub front: u32,
    /// Front was loaded after that rear, and not stored since.
    pub fresh: bool,
    /// The flush word was loaded since front was stored last.
    pub flush_fresh: bool,
    /// Rear was loaded since that load of the flush word.
    pub rear_fresh: bool,
    /// The words of the cells from that front on that were loaded since, in order.
    pub loaded: LinkedList<u32>,
}

/// What a hand has done. No value of it is made.
pub struct HandPart {
    pub shape: Shape,
    /// The hand's events, oldest first.
    pub events: LinkedList<HandEvent>,
}

/// The parts that a seat has. No value of it is made.
pub struct View {
    pub is_client: bool,
    pub client: ClientPart,
    pub is_server: bool,
    pub server: ServerPart,
    pub is_hand: bool,
    pub hand: HandPart,
    /// The server's events at the hand's last meeting with the client.
    pub known: LinkedList<ServerEvent>,
}
