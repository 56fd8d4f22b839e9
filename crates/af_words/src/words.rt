//! The words after the program's name, read by a simple command of `clap` with subcommands.
ghost use Rattle.std.specs.Prelude.{◌≡◌, ◌∷◌, ◌<◌, ◌≤◌, ◌^◌, [], false, map, option_map, IfOk, IfSome, string_bytes};
ghost use Rattle.std.specs.List.{list_any};
ghost use Rattle.clap.specs.Words.{app_of, first_of, found_of, rows_of, rule_of, shape_of, subcommand_rows_of, with_subcommand};
ghost use Rattle.clap.specs.Simple.{Shape};
ghost use Rattle.clap.specs.declared.builder.command.Command.TheViews.{out-Command};
ghost use Rattle.af_words.specs.Asking.{request_view, IsSound};
ghost use Rattle.af_words.specs.Asking.{AreSizes};
ghost use Rattle.af_words.specs.Dash.{begins_dash};
ghost use Rattle.af_words.specs.Asking.{AreLoopTurns};
ghost use Rattle.af_words.specs.Requests.{is_drawn, are_three_names, are_four_names, free_names, request_of, sizes_of, turns_of, two_names};
ghost use Rattle.af_words.specs.Words.{needed, command_words, with_rules, bare_words, render_words, record_words, loop_words, generate_words, play_words, verify_words, trace_words, player_words, render_met, record_met, loop_met, generate_met, play_met, verify_met, trace_met, matched_request};
ghost use Rattle.af_script.specs.Text.{number_within};

use crate::request::{Request, Sizes, Turns};
use af_script::{GENERATED_TRACKS, generated_name, is_name, number_within};
use clap::error::ErrorKind;
use clap::{Arg, ArgMatches, Command};
use std::alloc::{AllocError, Global};
use std::mem::drop;

/// Whether a word begins with `-`.
fn begins_dash(word: &str) -> bool
    ensures { result ≡ begins_dash word.now }
{
    match word.as_bytes() {
        [] => false,
        [first, ..] => *first == b'-',
    }
}

/// Whether one of the words begins with `-`.
fn any_dash(words: &[String]) -> bool
    ensures { result ≡ list_any (λ word. begins_dash (string_bytes word)) words.now }
{
    words.iter().any(|word| begins_dash(word.as_str()))
}

/// An argument that can't be left out.
fn needed<'a>(alloc: Global, id: &'a str) -> Arg<'a>
    ensures rule { rule_of result ≡ needed id.entry.now }
    ensures local { result.global ≡ false }
{
    Arg::new(alloc, id).required(true)
}

/// A command with one more argument that can't be left out.
fn with_needed<'a>(
    alloc: Global,
    command: Command<'a>,
    id: &'a str,
) -> Result<Command<'a>, AllocError>
    requires { (out-Command command).has_globals ≡ false }
    ensures shape { IfOk result (λ more. shape_of more ≡ with_rules (shape_of command.entry) (needed id.entry.now ∷ [])) }
    ensures local { IfOk result (λ more. (out-Command more).has_globals ≡ false) }
{
    command.arg(needed(alloc, id))
}

/// A subcommand with these arguments, none of which can be left out.
fn command_of<'a>(alloc: Global, name: &'a str, ids: &[&'a str]) -> Result<Command<'a>, AllocError>
    ensures shape { IfOk result (λ command. shape_of command ≡ command_words name.entry.now (map (λ id. id.now) ids.now)) }
    ensures local { IfOk result (λ command. (out-Command command).has_globals ≡ false) }
{
    let mut command = Command::new(alloc, name);
    for id in ids {
        command = with_needed(alloc, command, id)?;
    }
    Ok(command)
}

/// The subcommand `render SCRIPT OUT`.
fn render_command<'a>(alloc: Global) -> Result<Command<'a>, AllocError>
    ensures shape { IfOk result (λ command. shape_of command ≡ render_words) }
    ensures local { IfOk result (λ command. (out-Command command).has_globals ≡ false) }
{
    command_of(alloc, "render", &["script", "out"])
}

/// The subcommand `record IN OUT N F K`.
fn record_command<'a>(alloc: Global) -> Result<Command<'a>, AllocError>
    ensures shape { IfOk result (λ command. shape_of command ≡ record_words) }
    ensures local { IfOk result (λ command. (out-Command command).has_globals ≡ false) }
{
    command_of(alloc, "record", &["in", "out", "room", "supply", "read"])
}

/// The subcommand `loop IN OUT F K START END COUNT`.
fn loop_command<'a>(alloc: Global) -> Result<Command<'a>, AllocError>
    ensures shape { IfOk result (λ command. shape_of command ≡ loop_words) }
    ensures local { IfOk result (λ command. (out-Command command).has_globals ≡ false) }
{
    command_of(
        alloc,
        "loop",
        &["in", "out", "places", "calls", "start", "end", "count"],
    )
}

/// The subcommand `generate NUMBER SCRIPT OUT`.
fn generate_command<'a>(alloc: Global) -> Result<Command<'a>, AllocError>
    ensures shape { IfOk result (λ command. shape_of command ≡ generate_words) }
    ensures local { IfOk result (λ command. (out-Command command).has_globals ≡ false) }
{
    command_of(alloc, "generate", &["number", "script", "out"])
}

/// The subcommand `play SCRIPT OUT JOURNAL`.
fn play_command<'a>(alloc: Global) -> Result<Command<'a>, AllocError>
    ensures shape { IfOk result (λ command. shape_of command ≡ play_words) }
    ensures local { IfOk result (λ command. (out-Command command).has_globals ≡ false) }
{
    command_of(alloc, "play", &["script", "out", "journal"])
}

/// The subcommand `verify SCRIPT OUT JOURNAL`.
fn verify_command<'a>(alloc: Global) -> Result<Command<'a>, AllocError>
    ensures shape { IfOk result (λ command. shape_of command ≡ verify_words) }
    ensures local { IfOk result (λ command. (out-Command command).has_globals ≡ false) }
{
    command_of(alloc, "verify", &["script", "out", "journal"])
}

/// The subcommand `trace SCRIPT OUT JOURNAL LOG ROOM`.
fn trace_command<'a>(alloc: Global) -> Result<Command<'a>, AllocError>
    ensures shape { IfOk result (λ command. shape_of command ≡ trace_words) }
    ensures local { IfOk result (λ command. (out-Command command).has_globals ≡ false) }
{
    command_of(alloc, "trace", &["script", "out", "journal", "log", "room"])
}

/// The command before its subcommands, without help.
fn bare_command<'a>(alloc: Global) -> Command<'a>
    ensures { app_of result ≡ bare_words }
{
    Command::new(alloc, "af_player")
        .no_binary_name(true)
        .disable_help_flag(true)
        .disable_help_subcommand(true)
        .subcommand_required(true)
}

/// A command with one more subcommand, if that could be made.
fn with_sub<'a>(
    command: Command<'a>,
    sub: Result<Command<'a>, AllocError>,
) -> Result<Command<'a>, AllocError>
    requires { IfOk sub (λ sub. (out-Command sub).has_globals ≡ false) }
    ensures { (shape : Shape) → IfOk sub.entry (λ sub. shape_of sub ≡ shape) → IfOk result (λ more. app_of more ≡ with_subcommand (app_of command.entry) shape) }
{
    match sub {
        Ok(sub) => command.subcommand(sub),
        Err(error) => {
            drop(command);
            Err(error)
        }
    }
}

/// The command with its subcommands, without help.
fn player_command<'a>(alloc: Global) -> Result<Command<'a>, AllocError>
    ensures { IfOk result (λ command. app_of command ≡ player_words) }
{
    let command = with_sub(bare_command(alloc), render_command(alloc))?;
    let command = with_sub(command, record_command(alloc))?;
    let command = with_sub(command, loop_command(alloc))?;
    let command = with_sub(command, generate_command(alloc))?;
    let command = with_sub(command, play_command(alloc))?;
    let command = with_sub(command, verify_command(alloc))?;
    with_sub(command, trace_command(alloc))
}

/// Two names of files that differ.
fn two_names<'a>(first: &'a str, second: &'a str) -> Option<(&'a str, &'a str)>
    ensures { option_map (λ names. (names.0.now, names.1.now)) result ≡ two_names first.now second.now }
{
    if is_name(first) && is_name(second) && first != second {
        Some((first, second))
    } else {
        None
    }
}

/// Whether this is the name of one of the files that the generator draws.
fn is_drawn(name: &str) -> bool
    ensures { result ≡ is_drawn name.now }
{
    for track in 0..GENERATED_TRACKS {
        if name == generated_name(track) {
            return true;
        }
    }
    false
}

/// Two names of files that differ, and that the generator doesn't draw.
fn free_names<'a>(first: &'a str, second: &'a str) -> Option<(&'a str, &'a str)>
    ensures value { option_map (λ names. (names.0.now, names.1.now)) result ≡ free_names first.now second.now }
    ensures free { IfSome result (λ names. is_drawn names.0.now ≡ false) }
{
    if is_drawn(first) {
        return None;
    }
    if is_drawn(second) {
        return None;
    }
    two_names(first, second)
}

/// The number of a session that a word spells.
fn number_of(word: &str) -> Option<u32>
    ensures value { result ≡ number_within 0 2147483647 word.now }
    ensures bound { IfSome result (λ number. number < 2 ^ 31) }
{
    number_within(word, 0, 2147483647)
}

/// Whether these are three names of files, no two alike.
fn are_three_names(first: &str, second: &str, third: &str) -> bool
    ensures { result ≡ are_three_names first.now second.now third.now }
{
    is_name(first)
        && is_name(second)
        && is_name(third)
        && first != second
        && first != third
        && second != third
}

/// Whether these are four names of files, no two alike.
fn are_four_names(first: &str, second: &str, third: &str, fourth: &str) -> bool
    ensures { result ≡ are_four_names first.now second.now third.now fourth.now }
{
    are_three_names(first, second, third)
        && is_name(fourth)
        && first != fourth
        && second != fourth
        && third != fourth
}

/// For how many notes a log has room, by the word that spells it.
fn room_of(word: &str) -> Option<u32>
    ensures value { result ≡ number_within 1 1024 word.now }
    ensures bound { IfSome result (λ room. (1 ≤ room) × (room ≤ 1024)) }
{
    number_within(word, 1, 1024)
}

/// The sizes of a recording that these words spell.
fn sizes_of(room: &str, supply: &str, read: &str) -> Option<Sizes>
    ensures value { result ≡ sizes_of room.now supply.now read.now }
    ensures sound { IfSome result AreSizes }
{
    let room = number_within(room, 1, 8192)?;
    let supply = number_within(supply, 1, 1024)?;
    let read = number_within(read, 1, 1024)?;
    Some(Sizes { room, supply, read })
}

/// The calls and the setting that these words spell.
fn turns_of(places: &str, calls: &str, start: &str, end: &str, count: &str) -> Option<Turns>
    ensures value { result ≡ turns_of places.now calls.now start.now end.now count.now }
    ensures sound { IfSome result AreLoopTurns }
{
    let places = number_within(places, 1, 1024)?;
    let calls = number_within(calls, 1, 2048)?;
    let start = number_within(start, 0, u32::MAX)?;
    let end = number_within(end, 0, u32::MAX)?;
    let count = number_within(count, 0, u32::MAX)?;
    Some(Turns {
        places,
        calls,
        start,
        end,
        count,
    })
}

/// The first value of an argument.
fn value_of<'a>(matches: &ArgMatches<'a>, id: &str) -> Option<&'a str>
    ensures { option_map (λ text. text.now) result ≡ first_of id.now (rows_of (found_of matches.now)) }
{
    matches.get_str(id)
}

/// The subcommand's name and its matches.
fn met<'a, 'm>(matches: &'m ArgMatches<'a>) -> Option<(&'a str, &'m ArgMatches<'a>)>
    ensures { option_map (λ pair. (pair.0.now, rows_of (found_of pair.1.now))) result ≡ subcommand_rows_of matches.now }
{
    matches.subcommand()
}

/// The request among the matches of `render`.
fn render_met<'a>(matches: &ArgMatches<'a>) -> Option<Request<'a>>
    ensures value { option_map request_view result ≡ render_met (rows_of (found_of matches.now)) }
    ensures sound { IfSome result IsSound }
{
    let script = value_of(matches, "script")?;
    let target = value_of(matches, "out")?;
    let (script, target) = two_names(script, target)?;
    Some(Request::Render { script, target })
}

/// The request among the matches of `record`.
fn record_met<'a>(matches: &ArgMatches<'a>) -> Option<Request<'a>>
    ensures value { option_map request_view result ≡ record_met (rows_of (found_of matches.now)) }
    ensures sound { IfSome result IsSound }
{
    let input = value_of(matches, "in")?;
    let target = value_of(matches, "out")?;
    let room = value_of(matches, "room")?;
    let supply = value_of(matches, "supply")?;
    let read = value_of(matches, "read")?;
    let (input, target) = two_names(input, target)?;
    let sizes = sizes_of(room, supply, read)?;
    Some(Request::Record {
        input,
        target,
        sizes,
    })
}

/// The request among the matches of `loop`.
fn loop_met<'a>(matches: &ArgMatches<'a>) -> Option<Request<'a>>
    ensures value { option_map request_view result ≡ loop_met (rows_of (found_of matches.now)) }
    ensures sound { IfSome result IsSound }
{
    let input = value_of(matches, "in")?;
    let target = value_of(matches, "out")?;
    let places = value_of(matches, "places")?;
    let calls = value_of(matches, "calls")?;
    let start = value_of(matches, "start")?;
    let end = value_of(matches, "end")?;
    let count = value_of(matches, "count")?;
    let (input, target) = two_names(input, target)?;
    let turns = turns_of(places, calls, start, end, count)?;
    Some(Request::Loop {
        input,
        target,
        turns,
    })
}

/// The request among the matches of `generate`.
fn generate_met<'a>(matches: &ArgMatches<'a>) -> Option<Request<'a>>
    ensures value { option_map request_view result ≡ generate_met (rows_of (found_of matches.now)) }
    ensures sound { IfSome result IsSound }
{
    let number = value_of(matches, "number")?;
    let script = value_of(matches, "script")?;
    let target = value_of(matches, "out")?;
    let number = number_of(number)?;
    let (script, target) = free_names(script, target)?;
    Some(Request::Generate {
        number,
        script,
        target,
    })
}

/// The request among the matches of `play`.
fn play_met<'a>(matches: &ArgMatches<'a>) -> Option<Request<'a>>
    ensures value { option_map request_view result ≡ play_met (rows_of (found_of matches.now)) }
    ensures sound { IfSome result IsSound }
{
    let script = value_of(matches, "script")?;
    let target = value_of(matches, "out")?;
    let journal = value_of(matches, "journal")?;
    if are_three_names(script, target, journal) {
        Some(Request::Play {
            script,
            target,
            journal,
        })
    } else {
        None
    }
}

/// The request among the matches of `verify`.
fn verify_met<'a>(matches: &ArgMatches<'a>) -> Option<Request<'a>>
    ensures value { option_map request_view result ≡ verify_met (rows_of (found_of matches.now)) }
    ensures sound { IfSome result IsSound }
{
    let script = value_of(matches, "script")?;
    let sound = value_of(matches, "out")?;
    let journal = value_of(matches, "journal")?;
    if are_three_names(script, sound, journal) {
        Some(Request::Verify {
            script,
            sound,
            journal,
        })
    } else {
        None
    }
}

/// The request among the matches of `trace`.
fn trace_met<'a>(matches: &ArgMatches<'a>) -> Option<Request<'a>>
    ensures value { option_map request_view result ≡ trace_met (rows_of (found_of matches.now)) }
    ensures sound { IfSome result IsSound }
{
    let script = value_of(matches, "script")?;
    let target = value_of(matches, "out")?;
    let journal = value_of(matches, "journal")?;
    let log = value_of(matches, "log")?;
    let room = value_of(matches, "room")?;
    if !are_four_names(script, target, journal, log) {
        return None;
    }
    let room = room_of(room)?;
    Some(Request::Trace {
        script,
        target,
        journal,
        log,
        room,
    })
}

/// The request among the matches of a subcommand.
fn matched_request<'a>(matches: &ArgMatches<'a>) -> Option<Request<'a>>
    ensures value { option_map request_view result ≡ matched_request (subcommand_rows_of matches.now) }
    ensures sound { IfSome result IsSound }
{
    let (name, inner) = met(matches)?;
    if name == "render" {
        render_met(inner)
    } else if name == "record" {
        record_met(inner)
    } else if name == "loop" {
        loop_met(inner)
    } else if name == "generate" {
        generate_met(inner)
    } else if name == "play" {
        play_met(inner)
    } else if name == "verify" {
        verify_met(inner)
    } else if name == "trace" {
        trace_met(inner)
    } else {
        None
    }
}

/// What the words ask for, none if they don't fit.
pub fn request_of<'a>(alloc: Global, words: &'a [String]) -> Result<Option<Request<'a>>, AllocError>
    ensures value { IfOk result (λ found. option_map request_view found ≡ request_of (map string_bytes words.now)) }
    ensures sound { IfOk result (λ found. IfSome found IsSound) }
{
    if any_dash(words) {
        return Ok(None);
    }
    let command = player_command(alloc)?;
    match command.try_get_matches_from(words) {
        Ok(matches) => Ok(matched_request(&matches)),
        Err(error) if error.kind() == ErrorKind::OutOfMemory => Err(AllocError),
        Err(_) => Ok(None),
    }
}
