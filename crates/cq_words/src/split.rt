//! The words of a command, split into its values by `clap`.
#![tactic(auto, using(crate::proofs::Splitting::line_steps))]

ghost use Rattle.std.specs.Prelude.{◌≡◌, IfErr, IfOk, false, true, is_some, map, option_map, string_bytes};
ghost use Rattle.clap.specs.Words.{
  app_of,
  first_of,
  found_of,
  kind_of,
  rows_of,
  subcommand_rows_of,
  with_rule,
};
ghost use Rattle.clap.specs.declared.builder.command.Command.TheViews.{out-Command as fields_of};
ghost use Rattle.cq_words.specs.Words.{command_for};
ghost use Rattle.cq_words.specs.Line.{
  IsForm,
  command_found,
  config_forms,
  line as whole_line,
  one_form,
  three_form,
  two_form,
  value_rule,
  with_form,
};

use clap::error::ErrorKind;
use clap::{Arg, ArgMatches, Command, Error};
use std::alloc::{AllocError, Global};

/// What `clap` finds in the words of a command: the subcommand of their form, with their values. It
/// takes all such words, so the error is want of memory.
#[tactic(auto, using(crate::proofs::Splitting::command_split))]
pub fn split<'a>(alloc: Global, words: &'a [String]) -> Result<ArgMatches<'a>, Error>
    requires { is_some (command_for (map string_bytes words.now)) ≡ true }
    ensures found { IfOk result (λ matches. command_found (subcommand_rows_of matches)
        ≡ command_for (map string_bytes words.now)) }
    ensures error { IfErr result (λ error. kind_of error ≡ ErrorKind.OutOfMemory) }
{
    let line = line(alloc)?;
    line.try_get_matches_from(words)
}

/// The first text of a value.
#[tactic(auto, using(crate::proofs::Splitting::value_steps))]
pub fn value<'a>(values: &ArgMatches<'a>, name: &str) -> Option<&'a str>
    ensures { option_map (λ text. text.now) result ≡ first_of name.now (rows_of (found_of values.now)) }
{
    values.get_str(name)
}

// The command line: one subcommand a form, and no forms of `clap`'s own.
fn line<'a>(alloc: Global) -> Result<Command<'a>, AllocError>
    ensures { IfOk result (λ line. app_of line ≡ whole_line) }
{
    let line = Command::new(alloc, "cq_switch")
        .no_binary_name(true)
        .disable_help_flag(true)
        .disable_help_subcommand(true);
    let line = with_two(alloc, line, "pass", "IN", "OUT")?;
    let line = with_config_forms(alloc, line)?;
    let line = with_three(alloc, line, "soak", "SEED", "PORTS", "SLOTS")?;
    let line = with_three(alloc, line, "part", "CONFIG", "SLOTS", "STATE")?;
    with_two(alloc, line, "resume", "CONFIG", "STATE")
}

// The line with the forms of a configuration alone.
fn with_config_forms<'a>(alloc: Global, line: Command<'a>) -> Result<Command<'a>, AllocError>
    ensures { IfOk result (λ r. app_of r ≡ config_forms (app_of line.entry)) }
{
    let line = with_one(alloc, line, "check", "CONFIG")?;
    let line = with_one(alloc, line, "ideal", "CONFIG")?;
    let line = with_one(alloc, line, "run", "CONFIG")?;
    with_one(alloc, line, "audit", "CONFIG")
}

// The line with one more form, of a word and one value.
fn with_one<'a>(
    alloc: Global,
    line: Command<'a>,
    word: &'a str,
    value: &'a str,
) -> Result<Command<'a>, AllocError>
    ensures { IfOk result (λ r. app_of r
        ≡ with_form (app_of line.entry) (one_form word.entry.now value.entry.now)) }
{
    with_subcommand(line, one_value(alloc, word, value)?)
}

// The line with one more form, of a word and two values.
fn with_two<'a>(
    alloc: Global,
    line: Command<'a>,
    word: &'a str,
    first: &'a str,
    second: &'a str,
) -> Result<Command<'a>, AllocError>
    ensures { IfOk result (λ r. app_of r
        ≡ with_form (app_of line.entry) (two_form word.entry.now first.entry.now second.entry.now)) }
{
    with_subcommand(line, two_values(alloc, word, first, second)?)
}

// The line with one more form, of a word and three values.
fn with_three<'a>(
    alloc: Global,
    line: Command<'a>,
    word: &'a str,
    first: &'a str,
    second: &'a str,
    third: &'a str,
) -> Result<Command<'a>, AllocError>
    ensures { IfOk result (λ r. app_of r ≡ with_form (app_of line.entry)
        (three_form word.entry.now first.entry.now second.entry.now third.entry.now)) }
{
    with_subcommand(line, three_values(alloc, word, first, second, third)?)
}

// A form of a word and one value.
fn one_value<'a>(alloc: Global, word: &'a str, value: &'a str) -> Result<Command<'a>, AllocError>
    ensures { IfOk result (IsForm (one_form word.entry.now value.entry.now)) }
{
    let form = Command::new(alloc, word);
    with_value(alloc, form, value)
}

// A form of a word and two values.
fn two_values<'a>(
    alloc: Global,
    word: &'a str,
    first: &'a str,
    second: &'a str,
) -> Result<Command<'a>, AllocError>
    ensures { IfOk result (IsForm (two_form word.entry.now first.entry.now second.entry.now)) }
{
    let form = one_value(alloc, word, first)?;
    with_value(alloc, form, second)
}

// A form of a word and three values.
fn three_values<'a>(
    alloc: Global,
    word: &'a str,
    first: &'a str,
    second: &'a str,
    third: &'a str,
) -> Result<Command<'a>, AllocError>
    ensures { IfOk result (IsForm (three_form word.entry.now first.entry.now second.entry.now third.entry.now)) }
{
    let form = two_values(alloc, word, first, second)?;
    with_value(alloc, form, third)
}

// The form with one more value, which the words must give.
fn with_value<'a>(
    alloc: Global,
    form: Command<'a>,
    name: &'a str,
) -> Result<Command<'a>, AllocError>
    requires { (fields_of form).has_globals ≡ false }
    ensures { IfOk result (IsForm (with_rule (app_of form.entry) (value_rule name.entry.now))) }
{
    let value = Arg::new(alloc, name).required(true);
    form.arg(value)
}

// The line with one more form.
fn with_subcommand<'a>(line: Command<'a>, form: Command<'a>) -> Result<Command<'a>, AllocError>
    requires { (fields_of form).has_globals ≡ false }
    ensures { IfOk result (λ r. app_of r ≡ with_form (app_of line.entry) (app_of form.entry)) }
{
    line.subcommand(form)
}
