//! What holds of every round in which all parties act at the same time.
ghost use Rattle.af_play_law.specs.KeptPlays.{PlaysKeepTheirLists};
ghost use Rattle.af_play_law.specs.Loads.{LoadsShowTheirNumber};
ghost use Rattle.af_play_law.specs.PlayLaws.{PlaysAreToldAlone};
ghost use Rattle.af_play_law.specs.PlayRuns.{RunsAreTold};
ghost use Rattle.af_play_law.specs.Polls.{PollsFindOneOfTwo, PollsStandBeforePush};
ghost use Rattle.af_play_law.specs.Rounds.{RoundsAreTold};
ghost use Rattle.af_runs.specs.Sessions.{Session};

/// A poll made while the mutator of a state queue takes its turn finds the last state that was pushed before the round, or the one that this turn pushes, and with it the items that went with it. It never finds a third.
pub fn a_poll_finds_one_of_two_states()
    ensures { PollsFindOneOfTwo }
{}

/// What the observer did in a round before a poll found the state that was pushed in it has a history with all that the mutator did up to that push: it may all be told before the push.
pub fn what_was_polled_before_a_push_stands_before_it()
    ensures { PollsStandBeforePush }
{}

/// The report that is loaded while others are stored is the one of its number among all that are stored in the end. No report that was stored before the last meeting is missing.
pub fn a_load_shows_the_report_of_its_number()
    ensures { LoadsShowTheirNumber }
{}

/// A round in which all parties act at the same time is told by its journal: the run with it tells the session after it, and if some party went on the round is legal by marks on whose blocks each front seen is a server's own; what stood before it stands again.
pub fn a_round_of_all_parties_is_told()
    ensures { (s : Session) → RoundsAreTold s }
{}

/// The rounds of a play are told one after the other, and each is legal: of each stream the fronts up to its last meeting are its server's own, and of each command block all are.
pub fn the_rounds_of_a_play_are_told()
    ensures { (s : Session) → RunsAreTold s }
{}

/// The rounds of a play that has ended are by themselves those of a run of the script and its files, whatever the threads did.
pub fn a_play_is_told_by_its_journal()
    ensures { PlaysAreToldAlone }
{}

/// The ends of a play, whether it has ended or was cut off, keep the lists of the run that its rounds tell: those of the clients' proxies, of the queue's mutator, of the report's reader, of the pipe's end, of the hands, and of the proxies that the normal mixer holds, if no poke was made.
pub fn the_ends_of_a_play_keep_its_lists()
    ensures { PlaysKeepTheirLists }
{}
