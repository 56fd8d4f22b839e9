//! What holds of each mix and of each turn of the normal mixer of a session that its run tells.
ghost use Rattle.af_runs.specs.Sessions.{Session};
ghost use Rattle.af_told_law.specs.MixLaws.{MixesAreTold};
ghost use Rattle.af_told_law.specs.NormalLaws.{PartsAreTold};

/// After a mix the run with it tells the session, and its entry is legal after what is told, by marks on whose blocks each front seen is a server's own.
pub fn a_mix_is_told()
    ensures { (s : Session) → MixesAreTold s }
{}

/// After a turn of the normal mixer, of which is known what the meetings show, the run with that turn tells the two proxies of each track, and each stream proxy that came home in it.
pub fn after_a_turn_each_track_is_told()
    ensures { (s : Session) → PartsAreTold s }
{}
