//! The parties of a session.
use af_fast::FastMixer;
use af_normal::NormalMixer;
use af_party::Party;
use std::marker::Model;

/// The parties of a session: the clients in order of tracks, the normal mixer and the fast mixer.
#[derive(Drop)]
pub struct Parties {
    pub clients: Vec<Party>,
    pub normal: NormalMixer,
    pub fast: FastMixer,
}

impl Model for Parties {
    ghost use Rattle.af_session.specs.Together.{SessionState};

    ghost Value = { SessionState };

    ghost view = { λ p. record { clients = p.clients.items; normal = p.normal; fast = p.fast } };
}
