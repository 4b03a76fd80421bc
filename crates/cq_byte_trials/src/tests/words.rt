//! Words, each with the command that they are.
use cq_base::NoMemory;
use cq_words::{Command, command_of, streamed};
use std::alloc::Global;

/// The words of a line, which are parted by blanks. An empty one is written `''`.
fn words_of(alloc: Global, line: &str) -> Result<Vec<String>, NoMemory> {
    let mut words: Vec<String> = Vec::new(alloc);
    for word in line.split_ascii_whitespace() {
        let text = if word == "''" { "" } else { word };
        words.push(String::from_str(alloc, text)?)?;
    }
    Ok(words)
}

/// What the program is asked to do, by the texts of its names.
#[derive(Clone, Copy, PartialEq, Eq)]
enum Request<'a> {
    Pass(&'a str, &'a str),
    Check(&'a str),
    Ideal(&'a str),
    Run(&'a str),
    Soak(u64, u16, u32),
    Audit(&'a str),
    Part(&'a str, u64, &'a str),
    Resume(&'a str, &'a str),
}

fn requested(command: &Command) -> Request<'_> {
    match command {
        Command::Pass { from, to } => Request::Pass(from.text(), to.text()),
        Command::Check { config } => Request::Check(config.text()),
        Command::Ideal { config } => Request::Ideal(config.text()),
        Command::Run { config } => Request::Run(config.text()),
        Command::Soak { seed, ports, slots } => Request::Soak(*seed, *ports, *slots),
        Command::Audit { config } => Request::Audit(config.text()),
        Command::Part {
            config,
            slots,
            state,
        } => Request::Part(config.text(), *slots, state.text()),
        Command::Resume { config, state } => Request::Resume(config.text(), state.text()),
    }
}

/// Whether words ask for this, or for nothing.
fn ask_for(alloc: Global, words: &[String], wanted: Option<Request>) -> bool {
    match command_of(alloc, words) {
        Ok(command) => {
            let asked = command.as_ref().map(requested);
            let is_wanted = asked == wanted;
            drop(command);
            is_wanted
        }
        Err(_) => false,
    }
}

/// Whether the words of a line ask for this, or for nothing.
fn line_asks_for(alloc: Global, line: &str, wanted: Option<Request>) -> bool {
    match words_of(alloc, line) {
        Ok(words) => ask_for(alloc, &words, wanted),
        Err(_) => false,
    }
}

/// Lines, with what their words ask for.
const REQUESTS: &[(&str, Request<'static>)] = &[
    ("pass a b", Request::Pass("a", "b")),
    ("pass a a", Request::Pass("a", "a")),
    ("check c.toml", Request::Check("c.toml")),
    ("ideal c.toml", Request::Ideal("c.toml")),
    ("audit c.toml", Request::Audit("c.toml")),
    ("run c.toml", Request::Run("c.toml")),
    ("run help", Request::Run("help")),
    ("run =", Request::Run("=")),
    ("part c 00 s", Request::Part("c", 0, "s")),
    (
        "part c 9223372036854775807 s",
        Request::Part("c", 9_223_372_036_854_775_807, "s"),
    ),
    ("resume c s", Request::Resume("c", "s")),
    ("soak 1 8 2000", Request::Soak(1, 8, 2000)),
    ("soak 0 64 20000", Request::Soak(0, 64, 20_000)),
    (
        "soak 18446744073709551615 1 1",
        Request::Soak(18_446_744_073_709_551_615, 1, 1),
    ),
    ("soak 00000000000000000001 01 001", Request::Soak(1, 1, 1)),
];

fn is_request(alloc: Global, row: &(&str, Request<'static>)) -> bool {
    line_asks_for(alloc, row.0, Some(row.1))
}

#[test]
fn words_of_a_form_are_its_command(rt: HostRuntime) {
    for row in REQUESTS {
        assert!(rt; is_request(rt.alloc(), row));
    }
}

/// Words that are no command.
const OTHERS: &[&str] = &[
    "",
    "''",
    "run",
    "run a b",
    "run ''",
    "run -",
    "run -a",
    "run --help",
    "runs a",
    "ru a",
    "pass",
    "Pass a b",
    "pass a",
    "pass a ''",
    "pass '' b",
    "pass -a b",
    "pass a -b",
    "pass -- a b",
    "pass a b c",
    "check",
    "check -c",
    "check a b",
    "ideal ''",
    "ideal -",
    "ideal a b",
    "help",
    "help run",
    "--help",
    "--version",
    "-h",
    "soak",
    "soak 1 8",
    "part c 9223372036854775808 s",
    "part c -1 s",
    "part c 000000000000000000001 s",
    "resume c",
    "resume c 1 s",
    "soak 1 8 10 1",
    "soak 1 65 10",
    "soak 1 0 10",
    "soak 1 8 0",
    "soak 1 8 20001",
    "soak +1 8 10",
    "soak 1 8 1a",
    "soak 1 8 000000000000000000010",
    "soak 18446744073709551616 1 1",
    "soak 99999999999999999999 1 1",
    "soak 018446744073709551615 64 20000",
];

#[test]
fn other_words_are_no_command(rt: HostRuntime) {
    for line in OTHERS {
        assert!(rt; line_asks_for(rt.alloc(), line, None));
    }
}

/// Words, parted by blanks, with their configuration to stream, or `-` where they have none.
const STREAMED: &[(&str, &str)] = &[
    ("stream c.toml", "c.toml"),
    ("stream stream", "stream"),
    ("stream", "-"),
    ("stream a b", "-"),
    ("stream -a", "-"),
    ("streams a", "-"),
    ("run c.toml", "-"),
    ("c.toml stream", "-"),
    ("", "-"),
];

/// Whether words have this configuration to stream. Those that have one are no command.
fn have_to_stream(alloc: Global, words: &[String], config: &str) -> bool {
    let found = streamed(words).unwrap_or("-");
    found == config && (config == "-" || ask_for(alloc, words, None))
}

/// Whether the words of a line have this configuration to stream.
fn line_has_to_stream(alloc: Global, row: &(&str, &str)) -> bool {
    let (line, config) = *row;
    match words_of(alloc, line) {
        Ok(words) => have_to_stream(alloc, &words, config),
        Err(_) => false,
    }
}

#[test]
fn stream_has_one_configuration(rt: HostRuntime) {
    for row in STREAMED {
        assert!(rt; line_has_to_stream(rt.alloc(), row));
    }
}
