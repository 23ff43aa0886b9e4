//! Options that are numbers, each with its range.
ghost use Rattle.clap.specs.Matches.{found_of};
ghost use Rattle.std.specs.Prelude.{◌≡◌, ◌≤◌, ℕ, IfSome};
ghost use Rattle.vdcp_line.specs.Options.{GivesNumber, WritesNumber};

use clap::{Arg, ArgMatches, value_parser};
use std::alloc::{AllocError, Global};

/// An option whose value is a number in decimal digits.
pub struct NumberOption {
    pub name: &'static str,
    /// What stands for the number in help.
    pub value_name: &'static str,
    pub least: u32,
    pub most: u32,
    /// What the option is if it is left out; None: no number.
    pub default: Option<&'static str>,
    pub help: &'static str,
}

pub const UNIT: NumberOption = NumberOption {
    name: "unit",
    value_name: "U",
    least: 0,
    most: 15,
    default: Some("0"),
    help: "The unit address, 0 to 15",
};

pub const PORT: NumberOption = NumberOption {
    name: "port",
    value_name: "P",
    least: 0,
    most: 255,
    default: Some("1"),
    help: "The port's number, 0 to 255",
};

pub const LIMIT: NumberOption = NumberOption {
    name: "limit",
    value_name: "L",
    least: 1,
    most: 1_000,
    default: Some("3"),
    help: "The controller gives up after this many unanswered exchanges in a row, 1 to 1000",
};

pub const CUE_FRAMES: NumberOption = NumberOption {
    name: "cue-frames",
    value_name: "F",
    least: 1,
    most: 1_000,
    default: Some("1"),
    help: "How many frames a cue takes, 1 to 1000",
};

pub const SERVE_SILENCE: NumberOption = NumberOption {
    name: "silence",
    value_name: "MS",
    least: 1,
    most: 60_000,
    default: Some("20"),
    help: "A command has ended, and a frame has passed, when nothing came for this many milliseconds, 1 to 60000",
};

pub const RUN_SILENCE: NumberOption = NumberOption {
    name: "silence",
    value_name: "MS",
    least: 1,
    most: 60_000,
    default: Some("100"),
    help: "An answer has ended when nothing came for this many milliseconds, 1 to 60000; more than the server's",
};

pub const TURNS: NumberOption = NumberOption {
    name: "turns",
    value_name: "N",
    least: 1,
    most: u32::MAX,
    default: Some("4294967295"),
    help: "Ends after this many waits for bytes or for a silence",
};

pub const LISTENS: NumberOption = NumberOption {
    name: "listens",
    value_name: "N",
    least: 1,
    most: u32::MAX,
    default: Some("4294967295"),
    help: "Gives up after this many waits for bytes or for a silence",
};

pub const POLL: NumberOption = NumberOption {
    name: "poll",
    value_name: "MS",
    least: 0,
    most: 60_000,
    default: Some("20"),
    help: "With --prompt, the state is asked again after this many milliseconds at the earliest, 0 to 60000",
};

pub const SEED: NumberOption = NumberOption {
    name: "seed",
    value_name: "N",
    least: 0,
    most: u32::MAX,
    default: Some("1"),
    help: "Which throws of the dice are made: the same seed, the same throws",
};

pub const LOSE: NumberOption = NumberOption {
    name: "lose",
    value_name: "P",
    least: 0,
    most: 100,
    default: Some("10"),
    help: "How many of 100 bursts are lost, 0 to 100",
};

pub const COPY: NumberOption = NumberOption {
    name: "copy",
    value_name: "P",
    least: 0,
    most: 100,
    default: Some("10"),
    help: "How many of 100 bursts come twice, 0 to 100",
};

pub const CUT: NumberOption = NumberOption {
    name: "cut",
    value_name: "P",
    least: 0,
    most: 100,
    default: Some("5"),
    help: "How many of 100 bursts end early, 0 to 100",
};

pub const DAMAGE: NumberOption = NumberOption {
    name: "damage",
    value_name: "P",
    least: 0,
    most: 100,
    default: Some("5"),
    help: "How many of 100 bursts have bytes changed, 0 to 100",
};

pub const FORGE: NumberOption = NumberOption {
    name: "forge",
    value_name: "P",
    least: 0,
    most: 100,
    default: Some("0"),
    help: "How many of 100 exchanges end with a forged ACK or NAK, 0 to 100; for a run with --confirm",
};

pub const LOSSY_SILENCE: NumberOption = NumberOption {
    name: "silence",
    value_name: "MS",
    least: 1,
    most: 60_000,
    default: Some("30"),
    help: "A burst has ended when nothing came for this many milliseconds, 1 to 60000; more than the server's",
};

pub const WITHIN: NumberOption = NumberOption {
    name: "within",
    value_name: "MS",
    least: 1,
    most: 60_000,
    default: Some("80"),
    help: "Nothing goes on this many milliseconds after its command, 1 to 60000; less than the silence of the run",
};

pub const RUN_LIMIT: NumberOption = NumberOption {
    name: "limit",
    value_name: "L",
    least: 1,
    most: 1_000,
    default: None,
    help: "The controller gives up after this many unanswered exchanges in a row, at most 1000; left out it is 3, with --prompt 10",
};

pub const IDLE: NumberOption = NumberOption {
    name: "idle",
    value_name: "S",
    least: 0,
    most: 86_400,
    default: None,
    help: "A connection has ended when nothing came by it for this many seconds, at most 86400 (with --stay 10 if left out); 0: it never has",
};

pub const FROM: NumberOption = NumberOption {
    name: "from",
    value_name: "K",
    least: 0,
    most: u32::MAX,
    default: None,
    help: "Begins with this event of the list, the first being 0; with --resume, whatever may have aired",
};

pub const STAY: NumberOption = NumberOption {
    name: "stay",
    value_name: "SECONDS",
    least: 0,
    most: u32::MAX,
    default: None,
    help: "Doesn't end because the line does: connects again, and goes on; with a number it gives up once nothing is heard for so many seconds",
};

pub fn number_option<'a>(alloc: Global, option: &NumberOption) -> Arg<'a> {
    let range = i64::from(option.least)..=i64::from(option.most);
    let arg = Arg::new(alloc, option.name)
        .long(option.name)
        .value_name(option.value_name)
        .value_parser(value_parser!(u32).range(range))
        .help(option.help);
    match option.default {
        Some(default) => arg.default_value(default),
        None => arg,
    }
}

/// `--poll` needs `--prompt`.
pub fn poll_option<'a>(alloc: Global) -> Result<Arg<'a>, AllocError> {
    number_option(alloc, &POLL).requires_arg("prompt")
}

/// `--stay` may have a number, behind `=`; 0 stands for none.
pub fn stay_option<'a>(alloc: Global) -> Arg<'a> {
    number_option(alloc, &STAY)
        .num_args(0..=1)
        .require_equals(true)
        .default_missing_value("0")
}

/// For how many seconds a run that stays tries while nothing is heard; None: for ever.
pub fn patience_of(matches: &ArgMatches) -> Option<u32> {
    match number_of(matches, &STAY) {
        0 => None,
        seconds => Some(seconds),
    }
}

/// For how many seconds a connection may be idle; None: for ever.
pub fn idle_of(matches: &ArgMatches, stay: bool) -> Option<u32>
    ensures least { IfSome result (λ seconds. 1 ≤ seconds) }
    ensures most { IfSome result (λ seconds. seconds ≤ 86400) }
{
    match matches.get_str("idle") {
        Some(text) => match number_in(text, 0, 86_400) {
            0 => None,
            seconds => Some(seconds),
        },
        // (a port that stays isn't left to a connection that is dead)
        None if stay => Some(10),
        None => None,
    }
}

pub fn from_of(matches: &ArgMatches) -> Option<usize> {
    let text = matches.get_str("from")?;
    Some(number_in(text, 0, u32::MAX) as usize)
}

/// The number that the option's text writes (`clap` lets no other text through). Left out, it is the default, or `least`.
pub fn number_of(matches: &ArgMatches, option: &NumberOption) -> u32
    requires { option.now.least ≤ option.now.most }
    ensures least { option.now.least ≤ result }
    ensures most { result ≤ option.now.most }
    ensures number { (n : ℕ) → GivesNumber (found_of matches.now) option.now.name.now option.now.least option.now.most n
        → result ≡ n }
{
    match matches.get_str(option.name) {
        Some(text) => number_in(text, option.least, option.most),
        None => option.least,
    }
}

fn number_in(text: &str, least: u32, most: u32) -> u32
    requires { least ≤ most }
    ensures least { least ≤ result }
    ensures most { result ≤ most }
    ensures number { (n : ℕ) → WritesNumber text.now n → least ≤ n → n ≤ most → result ≡ n }
{
    match text.parse::<u32>() {
        Ok(number) => number.clamp(least, most),
        Err(_) => least,
    }
}

pub fn unit_of(matches: &ArgMatches) -> u8
    ensures most { result ≤ 15 }
{
    number_of(matches, &UNIT) as u8
}

pub fn port_of(matches: &ArgMatches) -> u8 {
    number_of(matches, &PORT) as u8
}

pub fn limit_of(matches: &ArgMatches) -> u32
    ensures least { 1 ≤ result }
    ensures most { result ≤ 1000 }
{
    number_of(matches, &LIMIT)
}

pub fn cue_frames_of(matches: &ArgMatches) -> u32
    ensures least { 1 ≤ result }
    ensures most { result ≤ 1000 }
{
    number_of(matches, &CUE_FRAMES)
}

/// In milliseconds.
pub fn run_silence_of(matches: &ArgMatches) -> u32
    ensures least { 1 ≤ result }
    ensures most { result ≤ 60000 }
{
    number_of(matches, &RUN_SILENCE)
}

/// In milliseconds.
pub fn poll_of(matches: &ArgMatches) -> u32 {
    number_of(matches, &POLL)
}

pub fn listens_of(matches: &ArgMatches) -> u32 {
    number_of(matches, &LISTENS)
}

pub fn turns_of(matches: &ArgMatches) -> u32 {
    number_of(matches, &TURNS)
}
