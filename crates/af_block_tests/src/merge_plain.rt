//! A search over all orders of three lists, one by one, for the tests.
use af_base::{ClientEvent, HandEvent, ServerEvent};
use af_model::TrackPoint;

pub(crate) type Lists<'a> = (&'a [ClientEvent], &'a [ServerEvent], &'a [HandEvent]);

/// An order so far: the point, how many events of each list stand, and how many of the client's stand before each of the hand's.
#[derive(Drop)]
struct Order {
    point: TrackPoint,
    clients: usize,
    servers: usize,
    hands: usize,
    at: [u64; 4],
}

/// The flush word at a point.
fn flush_word(p: &TrackPoint) -> u32 {
    if p.wrap == 0 {
        return p.flushes;
    }
    let place = (p.flush_at % u64::from(p.wrap)) as u32;
    place.wrapping_add(p.wrap.wrapping_mul(p.flushes))
}

impl Order {
    fn client(&mut self, event: &ClientEvent) -> bool {
        let p = &mut self.point;
        match *event {
            ClientEvent::Release { count } => p.released = p.released.wrapping_add(count.into()),
            ClientEvent::Flush => {
                p.flushes = p.flushes.wrapping_add(1);
                p.flush_at = p.released;
            }
            ClientEvent::SetGain { word } => p.gains = word,
            ClientEvent::ClearFlags { old } => {
                if old != p.flags {
                    return false;
                }
                p.flags &= !8;
            }
            ClientEvent::SawFlags { flags } if flags & 4 == 0 => return p.flags & 4 == 0,
            ClientEvent::SawFlags { flags } => return flags == p.flags,
            ClientEvent::SawFront { front } => return u64::from(front) == p.consumed % (1 << 32),
            ClientEvent::SawStatus { word } => return word == p.status,
            ClientEvent::Poke { .. } => return false,
            ClientEvent::Learn { count } => return count <= self.servers as u64,
        }
        true
    }

    fn server(&mut self, event: &ServerEvent) -> bool {
        let p = &mut self.point;
        match *event {
            ServerEvent::SawGain { word } => return word == p.gains,
            ServerEvent::SawFlush { flush } => {
                p.drop_to = p.flush_at;
                return flush == flush_word(p);
            }
            ServerEvent::SawRear { rear } => {
                p.rear_seen = p.released;
                return u64::from(rear) == p.released % (1 << 32);
            }
            ServerEvent::SawFront { front } => return u64::from(front) == p.consumed % (1 << 32),
            ServerEvent::Drop { to } => {
                p.consumed = match p.wrap {
                    0 => p.rear_seen,
                    _ if p.drop_to < p.consumed => p.consumed,
                    _ => p.drop_to,
                };
                return u64::from(to) == p.consumed % (1 << 32);
            }
            ServerEvent::Take { count } => {
                p.consumed = p.consumed.wrapping_add(count.into());
                return p.consumed <= p.rear_seen;
            }
            ServerEvent::Tally { .. } => {}
            ServerEvent::SetFlags { bits } => p.flags |= bits,
            ServerEvent::SetStatus { word } => p.status = word,
            ServerEvent::Learn { count } => return count <= self.clients as u64,
        }
        true
    }

    fn hand(&mut self, event: &HandEvent) {
        if let HandEvent::SetFlags { bits } = *event {
            self.point.flags |= bits;
        }
        if let Some(at) = self.at.get_mut(self.hands) {
            *at = self.clients as u64;
        }
    }

    /// Whether the next event of that party may stand, and it stands.
    fn turn(&mut self, lists: Lists<'_>, party: u32) -> bool {
        match party {
            0 => {
                let Some(event) = lists.0.get(self.clients) else {
                    return false;
                };
                self.clients = self.clients.wrapping_add(1);
                self.client(event)
            }
            1 => {
                let Some(event) = lists.1.get(self.servers) else {
                    return false;
                };
                self.servers = self.servers.wrapping_add(1);
                self.server(event)
            }
            _ => {
                let Some(event) = lists.2.get(self.hands) else {
                    return false;
                };
                self.hand(event);
                self.hands = self.hands.wrapping_add(1);
                true
            }
        }
    }

    /// Whether so many client events, which a meeting at that place named, stand where they must.
    fn keeps(&self, place: usize, known: u64) -> bool {
        for (other, at) in self.at.iter().enumerate() {
            if other < self.hands
                && ((other < place && *at > known) || (other > place && *at < known))
            {
                return false;
            }
        }
        true
    }

    fn keeps_meetings(&self, hand: &[HandEvent]) -> bool {
        for (place, event) in hand.iter().enumerate() {
            if let HandEvent::Met { client } = *event {
                if !self.keeps(place, client) {
                    return false;
                }
            }
        }
        true
    }
}

/// Whether the order whose turns are the digits of `code` to base 3 is legal.
fn is_legal(lists: Lists<'_>, from: &TrackPoint, code: u32, turns: usize) -> bool {
    let mut order = Order {
        point: *from,
        clients: 0,
        servers: 0,
        hands: 0,
        at: [0; 4],
    };
    let mut code = code;
    for _ in 0..turns {
        if !order.turn(lists, code % 3) {
            return false;
        }
        code /= 3;
    }
    order.keeps_meetings(lists.2)
}

/// Whether some order is legal, by trying all.
pub(crate) fn some_order(lists: Lists<'_>, from: &TrackPoint) -> bool {
    let (client, server, hand) = lists;
    let turns = client
        .len()
        .wrapping_add(server.len())
        .wrapping_add(hand.len());
    let mut codes = 1u32;
    for _ in 0..turns {
        codes = codes.wrapping_mul(3);
    }
    for code in 0..codes {
        if is_legal(lists, from, code, turns) {
            return true;
        }
    }
    false
}
