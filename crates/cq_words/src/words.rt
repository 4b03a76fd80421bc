//! Words that are a command.
ghost use Rattle.std.specs.Prelude.{◌≡◌, IfErr, IfOk, codes, is_some, map, string_bytes, option_and_then, true};
ghost use Rattle.clap.specs.Words.{first_of, found_of, rows_of, subcommand_rows_of};
ghost use Rattle.cq_words.specs.Words.{command_for, with_config as config_command};
ghost use Rattle.cq_words.specs.Line.{both, captures_in, command_found, numbers_in, slots_in, state_in};

use crate::command::{Command, slots_of, soak};
use crate::judge::is_command;
use crate::split::{split, value};
use clap::ArgMatches;
use cq_base::{Name, NoMemory};
use std::alloc::Global;

/// The command that the words are, or None where they are no command. The error is want of memory, and comes
/// only for words that are a command: judging them takes none.
pub fn command_of(alloc: Global, words: &[String]) -> Result<Option<Command>, NoMemory>
    ensures command { IfOk result (λ command. command ≡ command_for (map string_bytes words.now)) }
    ensures judged { IfErr result (λ _. is_some (command_for (map string_bytes words.now)) ≡ true) }
{
    if !is_command(words) {
        return Ok(None);
    }
    match split(alloc, words) {
        Ok(matches) => found(alloc, &matches),
        Err(_no_memory) => Err(NoMemory),
    }
}

// The command of what `clap` found.
fn found(alloc: Global, matches: &ArgMatches) -> Result<Option<Command>, NoMemory>
    ensures { IfOk result (λ command. command ≡ command_found (subcommand_rows_of matches.now)) }
{
    let Some((word, values)) = matches.subcommand() else {
        return Ok(None);
    };
    match word {
        "pass" => with_captures(alloc, values),
        "soak" => Ok(with_numbers(values)),
        "part" => with_slots(alloc, values),
        "resume" => with_state(alloc, values),
        _ => with_config(alloc, word, values),
    }
}

// The command of a word with the name of a configuration.
fn with_config(alloc: Global, word: &str, values: &ArgMatches) -> Result<Option<Command>, NoMemory>
    ensures { IfOk result (λ command. command ≡ option_and_then (config_command word.now)
        (first_of (codes "CONFIG") (rows_of (found_of values.now)))) }
{
    let Some(config) = value(values, "CONFIG") else {
        return Ok(None);
    };
    let config = Name::of(alloc, config)?;
    match word {
        "check" => Ok(Some(Command::Check { config })),
        "ideal" => Ok(Some(Command::Ideal { config })),
        "run" => Ok(Some(Command::Run { config })),
        "audit" => Ok(Some(Command::Audit { config })),
        _ => Ok(None),
    }
}

// The names that two of the values are, where there are both.
fn two_names(
    alloc: Global,
    values: &ArgMatches,
    first: &str,
    second: &str,
) -> Result<Option<(Name, Name)>, NoMemory>
    ensures { IfOk result (λ names. let rows = rows_of (found_of values.now) in
        names ≡ both (first_of first.now rows) (first_of second.now rows)) }
{
    let Some(first) = value(values, first) else {
        return Ok(None);
    };
    let Some(second) = value(values, second) else {
        return Ok(None);
    };
    let first = Name::of(alloc, first)?;
    let second = Name::of(alloc, second)?;
    Ok(Some((first, second)))
}

// The command of the names of two captures.
fn with_captures(alloc: Global, values: &ArgMatches) -> Result<Option<Command>, NoMemory>
    ensures { IfOk result (λ command. let rows = rows_of (found_of values.now) in
        command ≡ captures_in (first_of (codes "IN") rows) (first_of (codes "OUT") rows)) }
{
    let names = two_names(alloc, values, "IN", "OUT")?;
    Ok(names.map(|(from, to)| Command::Pass { from, to }))
}

// The command of a configuration, a number of slots, and the name of a state.
fn with_slots(alloc: Global, values: &ArgMatches) -> Result<Option<Command>, NoMemory>
    ensures { IfOk result (λ command. let rows = rows_of (found_of values.now) in command ≡ slots_in
        (first_of (codes "CONFIG") rows) (first_of (codes "SLOTS") rows) (first_of (codes "STATE") rows)) }
{
    let Some(config) = value(values, "CONFIG") else {
        return Ok(None);
    };
    let Some(slots) = value(values, "SLOTS") else {
        return Ok(None);
    };
    let Some(state) = value(values, "STATE") else {
        return Ok(None);
    };
    let Some(slots) = slots_of(slots) else {
        return Ok(None);
    };
    let config = Name::of(alloc, config)?;
    let state = Name::of(alloc, state)?;
    Ok(Some(Command::Part {
        config,
        slots,
        state,
    }))
}

// The command of a configuration and the name of a state.
fn with_state(alloc: Global, values: &ArgMatches) -> Result<Option<Command>, NoMemory>
    ensures { IfOk result (λ command. let rows = rows_of (found_of values.now) in
        command ≡ state_in (first_of (codes "CONFIG") rows) (first_of (codes "STATE") rows)) }
{
    let names = two_names(alloc, values, "CONFIG", "STATE")?;
    Ok(names.map(|(config, state)| Command::Resume { config, state }))
}

// The command of three numbers.
fn with_numbers(values: &ArgMatches) -> Option<Command>
    ensures { let rows = rows_of (found_of values.now) in result ≡ numbers_in
        (first_of (codes "SEED") rows) (first_of (codes "PORTS") rows) (first_of (codes "SLOTS") rows) }
{
    let seed = value(values, "SEED")?;
    let ports = value(values, "PORTS")?;
    let slots = value(values, "SLOTS")?;
    soak(seed, ports, slots)
}
