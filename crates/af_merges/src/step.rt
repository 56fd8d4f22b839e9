//! One event of a block's history as a step of a search.
ghost use Rattle.std.specs.Prelude.{◌≡◌, true, bit_or, IfSome, if◌then◌else◌, Some, None};
ghost use Rattle.af_model.specs.Point.{wrapped, flush_word as word_of_flushes, drop_end as end_of_drop, after_hand as after_hand_event};
ghost use Rattle.af_merges.specs.MergeSteps.{HasRoom, ClientGrows, ServerGrows, client_step, server_step};

use af_base::{ClientEvent, DISABLED, HandEvent, INVALID, ServerEvent};
use af_model::TrackPoint;

fn wrapped_word(x: u64) -> u32
    ensures { result ≡ wrapped x }
{
    (x % (1 << 32)) as u32
}

// The word of the flushes so far.
fn flush_word(point: &TrackPoint) -> u32
    ensures { result ≡ word_of_flushes point.now }
{
    if point.wrap == 0 {
        return point.flushes;
    }
    let place = point.flush_at % u64::from(point.wrap);
    point
        .flushes
        .wrapping_mul(point.wrap)
        .wrapping_add(place as u32)
}

// The position up to which a drop consumes.
fn drop_end(point: &TrackPoint) -> u64
    ensures { result ≡ end_of_drop point.now }
{
    if point.wrap == 0 {
        return point.rear_seen;
    }
    point.drop_to.max(point.consumed)
}

fn when(legal: bool, point: TrackPoint) -> Option<TrackPoint>
    ensures { result ≡ (if legal then Some point else None) }
{
    if legal { Some(point) } else { None }
}

fn with_consumed(point: &TrackPoint, consumed: u64) -> TrackPoint
    ensures { result ≡ record point.now { consumed = consumed } }
{
    TrackPoint { consumed, ..*point }
}

fn with_flags(point: &TrackPoint, bits: u32) -> TrackPoint
    ensures { result ≡ record point.now { flags = bit_or point.now.flags bits } }
{
    TrackPoint {
        flags: point.flags | bits,
        ..*point
    }
}

/// Whether a client's event is a look that is legal, with that many events of the server before it. A look changes no point.
pub(crate) fn may_look(point: &TrackPoint, servers: u64, event: &ClientEvent) -> bool
    ensures { result ≡ true → client_step point.now servers event.now ≡ Some point.now }
{
    match *event {
        ClientEvent::SawFlags { flags } => {
            if flags & INVALID == 0 {
                point.flags & INVALID == 0
            } else {
                flags == point.flags
            }
        }
        ClientEvent::SawFront { front } => front == wrapped_word(point.consumed),
        ClientEvent::SawStatus { word } => word == point.status,
        ClientEvent::Learn { count } => count <= servers,
        _ => false,
    }
}

/// The point after a client's event, if it is legal. That many events of the server stand before it.
pub(crate) fn after_client(
    point: &TrackPoint,
    servers: u64,
    event: &ClientEvent,
) -> Option<TrackPoint>
    requires { HasRoom point.now }
    ensures value { result ≡ client_step point.now servers event.now }
    // A client's event raises what was released by less than 2 ^ 32, and the flushes by one at most.
    ensures grows { IfSome result (ClientGrows point.now) }
{
    match *event {
        ClientEvent::Release { count } => Some(TrackPoint {
            released: point.released + u64::from(count),
            ..*point
        }),
        ClientEvent::Flush => Some(TrackPoint {
            flushes: point.flushes + 1,
            flush_at: point.released,
            ..*point
        }),
        ClientEvent::SetGain { word } => Some(TrackPoint {
            gains: word,
            ..*point
        }),
        ClientEvent::ClearFlags { old } => when(
            old == point.flags,
            TrackPoint {
                flags: point.flags & !DISABLED,
                ..*point
            },
        ),
        ClientEvent::SawFlags { flags } => {
            if flags & INVALID == 0 {
                when(point.flags & INVALID == 0, *point)
            } else {
                when(flags == point.flags, *point)
            }
        }
        ClientEvent::SawFront { front } => when(front == wrapped_word(point.consumed), *point),
        ClientEvent::SawStatus { word } => when(word == point.status, *point),
        ClientEvent::Poke { .. } => None,
        ClientEvent::Learn { count } => when(count <= servers, *point),
    }
}

/// The point after a server's event, if it is legal. That many events of the client stand before it.
pub(crate) fn after_server(
    point: &TrackPoint,
    clients: u64,
    event: &ServerEvent,
) -> Option<TrackPoint>
    requires { HasRoom point.now }
    ensures value { result ≡ server_step point.now clients event.now }
    // A server's event leaves no position beyond those that the point had.
    ensures grows { IfSome result (ServerGrows point.now) }
{
    match *event {
        ServerEvent::SawGain { word } => when(word == point.gains, *point),
        ServerEvent::SawFlush { flush } => when(
            flush == flush_word(point),
            TrackPoint {
                flush_seen: point.flushes,
                drop_to: point.flush_at,
                ..*point
            },
        ),
        ServerEvent::SawRear { rear } => when(
            rear == wrapped_word(point.released),
            TrackPoint {
                rear_seen: point.released,
                ..*point
            },
        ),
        ServerEvent::SawFront { front } => when(front == wrapped_word(point.consumed), *point),
        ServerEvent::Drop { to } => {
            let consumed = drop_end(point);
            when(to == wrapped_word(consumed), with_consumed(point, consumed))
        }
        ServerEvent::Take { count } => {
            let consumed = point.consumed + u64::from(count);
            when(consumed <= point.rear_seen, with_consumed(point, consumed))
        }
        ServerEvent::Tally { missing } => Some(TrackPoint {
            underruns: point.underruns.wrapping_add(missing),
            ..*point
        }),
        ServerEvent::SetFlags { bits } => Some(with_flags(point, bits)),
        ServerEvent::SetStatus { word } => Some(TrackPoint {
            status: word,
            ..*point
        }),
        ServerEvent::Learn { count } => when(count <= clients, *point),
    }
}

/// The point after an event of the hand.
pub(crate) fn after_hand(point: &TrackPoint, event: &HandEvent) -> TrackPoint
    ensures { result ≡ after_hand_event point.now event.now }
{
    match *event {
        HandEvent::SetFlags { bits } => with_flags(point, bits),
        HandEvent::Met { .. } => *point,
    }
}
