//! The command line: each subcommand with its arguments and its help.
use crate::number::{
    COPY, CUE_FRAMES, CUT, DAMAGE, FORGE, FROM, IDLE, LIMIT, LISTENS, LOSE, LOSSY_SILENCE,
    NumberOption, PORT, RUN_LIMIT, RUN_SILENCE, SEED, SERVE_SILENCE, TURNS, UNIT, WITHIN,
    number_option, poll_option, stay_option,
};
use crate::rate::rate_option;
use clap::{Arg, ArgAction, Command};
use std::alloc::{AllocError, Global};

// The program's version, and the toolchain that it is proved with.
const VERSION: &str = "0.1.0\nrattle-kit-13f logic dac8208d650f15bf";

const SIM_EXAMPLE: &str =
    "Example: vdcp sim examples/playlist.csv examples/catalogue.csv examples/lossy.txt";

const SERVE_EXAMPLE: &str = "Example: vdcp serve 127.0.0.1:7400 examples/catalogue.csv --log";

const RUN_EXAMPLE: &str =
    "Example: vdcp run 127.0.0.1:7400 examples/playlist.csv --asrun asrun.csv";

const PROBE_EXAMPLE: &str =
    "It stops what the port plays, and no automation may use the port meanwhile.

Example: vdcp probe 127.0.0.1:7400 examples/catalogue.csv --yes-it-may-stop";

const ASK_EXAMPLE: &str =
    "The port needn't be open, and stays as it is. Another automation may play meanwhile, if the
server takes a second connection.

Example: vdcp ask 127.0.0.1:7400 examples/playlist.csv";

const LOSSY_EXAMPLE: &str =
    "It keeps what the report of a run rests on, unless a process is held up for longer than the silence of
the run less --within. Each way it holds one burst. A copied command reaches the server as two bursts,
and only the answer to the last goes on; a copied answer goes out twice at once. Nothing of an exchange
goes on once the time of --within has passed, and what the server sends later is dropped before the next
command goes on. Of a damaged burst only its first messages are read, or none. So --silence has to be
more than the server's, and --within less than the silence of the run; and --forge is for a run with
--confirm alone. A copied command takes three times --silence, and its answer is late unless --within is
more.

Example, in three terminals:
  vdcp serve 127.0.0.1:7400 examples/catalogue.csv
  vdcp lossy 127.0.0.1:7401 127.0.0.1:7400 --seed 7 --lose 20 --within 150
  vdcp run 127.0.0.1:7401 examples/playlist.csv --silence 200 --limit 20";

// Each begins with its name and ends with its help.
#[derive(Clone, Copy)]
enum Argument {
    // It has to be there.
    Required(&'static str, &'static str),
    // It may be left out.
    Optional(&'static str, &'static str),
    // Any number of words.
    Words(&'static str, &'static str),
    Flag(&'static str, &'static str),
    // An option and what its value is called.
    Value(&'static str, &'static str, &'static str),
    // The same, and the option that it needs.
    ValueWith(&'static str, &'static str, &'static str, &'static str),
    Number(&'static NumberOption),
    Rate,
    Poll,
    Only,
    Resume,
    OpenAgain,
    Stay,
    Skip,
    Unsure,
}

const LIST: Argument = Argument::Required("LIST", "The playlist's file");

const CATALOGUE: Argument = Argument::Required("CATALOGUE", "The catalogue's file");

const CONFIRM: Argument = Argument::Flag("confirm", "The controller trusts no ACK and no NAK");

const CAPTURE: Argument = Argument::Value(
    "capture",
    "FILE",
    "Makes this file, with all that the automation sends and hears, for judge; an older one stays as FILE.~N~",
);

const SERVER: Argument = Argument::Required("ADDR", "Where the server listens, as 127.0.0.1:7400");

#[derive(Clone, Copy)]
struct Subcommand {
    name: &'static str,
    about: &'static str,
    after_help: &'static str,
    arguments: &'static [Argument],
}

static SHOW: Subcommand = Subcommand {
    name: "show",
    about: "Shows a burst: its messages, and how it ends",
    after_help: "Example: vdcp show 02021001ef --words",
    arguments: &[
        Argument::Required("HEX", "The burst's bytes in hexadecimal digits"),
        Argument::Flag(
            "words",
            "Shows the command or reply that each message carries",
        ),
    ],
};

static MAKE: Subcommand = Subcommand {
    name: "make",
    about: "Makes the bytes of a command",
    after_help: "Example: vdcp make cue CLIP0001",
    arguments: &[
        Argument::Required("COMMAND", "The command's name, such as play or cue"),
        Argument::Words("ARG", "The command's arguments, such as an ID"),
        Argument::Number(&UNIT),
    ],
};

static CHECK: Subcommand = Subcommand {
    name: "check",
    about: "Checks a playlist against a catalogue",
    after_help: "Example: vdcp check examples/playlist.csv examples/catalogue.csv",
    arguments: &[LIST, CATALOGUE, Argument::Rate],
};

static SIM: Subcommand = Subcommand {
    name: "sim",
    about: "Runs a script of events on the line between a controller and a port",
    after_help: SIM_EXAMPLE,
    arguments: &[
        LIST,
        CATALOGUE,
        Argument::Required("SCRIPT", "The script's file"),
        Argument::Number(&UNIT),
        Argument::Number(&PORT),
        Argument::Number(&LIMIT),
        Argument::Rate,
        Argument::Flag("trace", "Prints each exchange too"),
        Argument::Number(&CUE_FRAMES),
        CONFIRM,
    ],
};

static SERVE: Subcommand = Subcommand {
    name: "serve",
    about: "Serves a port with the clips of a catalogue to an automation, over TCP",
    after_help: SERVE_EXAMPLE,
    arguments: &[
        Argument::Required(
            "ADDR",
            "Where it listens, as 127.0.0.1:7400; for TCP port 0 the system chooses one",
        ),
        CATALOGUE,
        Argument::Number(&UNIT),
        Argument::Number(&PORT),
        Argument::Rate,
        Argument::Number(&CUE_FRAMES),
        Argument::Number(&SERVE_SILENCE),
        Argument::Number(&TURNS),
        Argument::Flag(
            "real-time",
            "Frames pass by the clock, as many a second as --rate has, and not at silences",
        ),
        Argument::Flag(
            "stay",
            "Keeps the port when a connection ends, and takes the next one",
        ),
        Argument::Number(&IDLE),
        Argument::ValueWith(
            "panel",
            "ADDR",
            "stay",
            "With --stay, shows the port in a browser on this machine: where the page is, as 127.0.0.1:7480",
        ),
        Argument::Flag(
            "log",
            "Tells standard error of each message, and of each item that goes to air",
        ),
        CAPTURE,
    ],
};

static RUN: Subcommand = Subcommand {
    name: "run",
    about: "Plays a list through the port of a server, over TCP",
    after_help: RUN_EXAMPLE,
    arguments: &[
        SERVER,
        LIST,
        Argument::Number(&UNIT),
        Argument::Number(&PORT),
        Argument::Number(&RUN_LIMIT),
        Argument::Rate,
        CONFIRM,
        Argument::Flag(
            "ask",
            "Asks the port first, and plays nothing where something is cued there or plays",
        ),
        Argument::Number(&RUN_SILENCE),
        Argument::Number(&LISTENS),
        Argument::Flag(
            "prompt",
            "Hears each answer as soon as it has come, torn or late; for a line that keeps order, as TCP does",
        ),
        Argument::Poll,
        Argument::Value(
            "asrun",
            "FILE",
            "Makes this file at the end, with the as-run list; an older one of other bytes stays as FILE.~N~",
        ),
        Argument::Value(
            "journal",
            "FILE",
            "Makes this file, and keeps each command there before it is sent",
        ),
        Argument::Resume,
        Argument::OpenAgain,
        Argument::Number(&FROM),
        Argument::Stay,
        Argument::Skip,
        Argument::Unsure,
        Argument::Flag(
            "operator",
            "Reads calls from standard input, a line each: take, stop, hold, go, and with --stay skip EVENT, jump EVENT",
        ),
        Argument::Value(
            "at",
            "TIME",
            "Puts the first event to air then: 20:15:00, or a time as 2026-11-27T20:15:00Z",
        ),
        Argument::Value(
            "panel",
            "ADDR",
            "Shows the run in a browser on this machine, and takes calls there: where the page is, as 127.0.0.1:7480",
        ),
        Argument::ValueWith(
            "catalogue",
            "FILE",
            "panel",
            "With --panel, shows there for how long still what is on air plays, by this catalogue",
        ),
        Argument::ValueWith(
            "name",
            "TEXT",
            "panel",
            "With --panel, what the page calls the channel",
        ),
        Argument::Flag("log", "Tells standard error of each message"),
        CAPTURE,
    ],
};

static ASRUN: Subcommand = Subcommand {
    name: "asrun",
    about: "Prints the as-run list that a journal shows",
    after_help: "Example: vdcp asrun run.journal",
    arguments: &[
        Argument::Required("JOURNAL", "The journal's file"),
        Argument::Optional(
            "LIST",
            "The playlist's file, to test that the journal is of it",
        ),
        Argument::Rate,
        Argument::Flag(
            "times",
            "Says of each event when it was played, and when it was known to have aired",
        ),
    ],
};

static JUDGE: Subcommand = Subcommand {
    name: "judge",
    about: "Holds an automation's commands on a captured line against the rule book",
    after_help: "Example: vdcp judge examples/playlist.csv capture.csv",
    arguments: &[
        LIST,
        Argument::Required("CAPTURE", "The file of what was captured, as by --capture"),
        Argument::Number(&UNIT),
        Argument::Rate,
        Argument::Flag("confirm", "The automation trusts no ACK and no NAK"),
    ],
};

static PROBE: Subcommand = Subcommand {
    name: "probe",
    about: "Asks a server whether its port keeps the table that as-run lists rest on, over TCP",
    after_help: PROBE_EXAMPLE,
    arguments: &[
        SERVER,
        CATALOGUE,
        Argument::Flag(
            "yes-it-may-stop",
            "What the port plays may be stopped; without this nothing is sent",
        ),
        Argument::Only,
        Argument::Number(&UNIT),
        Argument::Number(&PORT),
        Argument::Rate,
        Argument::Number(&RUN_SILENCE),
    ],
};

static ASK: Subcommand = Subcommand {
    name: "ask",
    about: "Asks a server whether it has each clip of a playlist, and parts that fit, over TCP",
    after_help: ASK_EXAMPLE,
    arguments: &[
        SERVER,
        LIST,
        Argument::Number(&UNIT),
        Argument::Rate,
        Argument::Number(&RUN_SILENCE),
    ],
};

static LOSSY: Subcommand = Subcommand {
    name: "lossy",
    about: "A line between a run and a server, over TCP, that loses, copies, cuts and damages bursts",
    after_help: LOSSY_EXAMPLE,
    arguments: &[
        Argument::Required(
            "ADDR",
            "Where it listens for a run, as 127.0.0.1:7401; for TCP port 0 the system chooses one",
        ),
        Argument::Required("SERVER", "Where the server listens, as 127.0.0.1:7400"),
        Argument::Number(&SEED),
        Argument::Number(&LOSE),
        Argument::Number(&COPY),
        Argument::Number(&CUT),
        Argument::Number(&DAMAGE),
        Argument::Number(&FORGE),
        Argument::Number(&LOSSY_SILENCE),
        Argument::Number(&WITHIN),
        Argument::Number(&TURNS),
        CAPTURE,
    ],
};

static VECTORS: Subcommand = Subcommand {
    name: "vectors",
    about: "Tests each row of a file of bursts and their readings",
    after_help: "Example: vdcp vectors examples/bursts.csv",
    arguments: &[Argument::Required("FILE", "The file of bursts and their readings")],
};

const SUBCOMMANDS: usize = 12;

fn subcommand_at(place: usize) -> &'static Subcommand {
    match place {
        0 => &SHOW,
        1 => &MAKE,
        2 => &CHECK,
        3 => &ASK,
        4 => &SIM,
        5 => &SERVE,
        6 => &RUN,
        7 => &ASRUN,
        8 => &JUDGE,
        9 => &PROBE,
        10 => &LOSSY,
        _ => &VECTORS,
    }
}

/// The command line. If its first word is a subcommand's name, no other one is made.
pub fn command<'a>(alloc: Global, first: Option<&str>) -> Result<Command<'a>, AllocError> {
    let mut command = Command::new(alloc, "vdcp")
        .bin_name("vdcp")?
        .about("One playout channel of the Video Disk Communications Protocol")
        .version(VERSION)
        .subcommand_required(true)
        .arg_required_else_help(true);
    let only = place_of(first);
    for place in 0..SUBCOMMANDS {
        if only.unwrap_or(place) == place {
            command = command.subcommand(made(alloc, subcommand_at(place))?)?;
        }
    }
    Ok(command)
}

fn place_of(name: Option<&str>) -> Option<usize> {
    for place in 0..SUBCOMMANDS {
        if Some(subcommand_at(place).name) == name {
            return Some(place);
        }
    }
    None
}

fn made<'a>(alloc: Global, subcommand: &Subcommand) -> Result<Command<'a>, AllocError> {
    let mut command = Command::new(alloc, subcommand.name)
        .about(subcommand.about)
        .after_help(subcommand.after_help);
    for argument in subcommand.arguments {
        command = command.arg(argument_of(alloc, argument)?)?;
    }
    Ok(command)
}

fn argument_of<'a>(alloc: Global, argument: &Argument) -> Result<Arg<'a>, AllocError> {
    match *argument {
        Argument::Required(name, help) => Ok(Arg::new(alloc, name).required(true).help(help)),
        Argument::Optional(name, help) => Ok(Arg::new(alloc, name).help(help)),
        Argument::Words(name, help) => Ok(Arg::new(alloc, name).num_args(0..).help(help)),
        Argument::Flag(name, help) => Ok(flag(alloc, name, help)),
        Argument::Value(name, value, help) => Ok(option(alloc, name, value, help)),
        Argument::ValueWith(name, value, needed, help) => {
            option(alloc, name, value, help).requires_arg(needed)
        }
        Argument::Number(number) => Ok(number_option(alloc, number)),
        Argument::Rate => Ok(rate_option(alloc)),
        Argument::Poll => poll_option(alloc),
        Argument::Only => Ok(only(alloc)),
        Argument::Resume => resume(alloc),
        Argument::OpenAgain => open_again(alloc),
        Argument::Stay => Ok(stay_option(alloc)),
        Argument::Skip => skip(alloc),
        Argument::Unsure => unsure(alloc),
    }
}

fn flag<'a>(alloc: Global, name: &'a str, help: &'a str) -> Arg<'a> {
    Arg::new(alloc, name)
        .long(name)
        .action(ArgAction::SetTrue)
        .help(help)
}

fn option<'a>(alloc: Global, name: &'a str, value: &'a str, help: &'a str) -> Arg<'a> {
    Arg::new(alloc, name)
        .long(name)
        .value_name(value)
        .help(help)
}

fn only<'a>(alloc: Global) -> Arg<'a> {
    Arg::new(alloc, "only")
        .long("only")
        .value_name("GROUP")
        .value_parser(["safe", "unsafe"].as_slice())
        .help("Puts only the rows that can falsify no as-run list, or only the others")
}

fn resume<'a>(alloc: Global) -> Result<Arg<'a>, AllocError> {
    option(
        alloc,
        "resume",
        "FILE",
        "Goes on with a run that was killed or lost, from its journal",
    )
    .conflicts_with("journal")
}

fn skip<'a>(alloc: Global) -> Result<Arg<'a>, AllocError> {
    flag(
        alloc,
        "skip",
        "With --stay, leaves out an event whose clip the server doesn't have, or, without --confirm, whose cue it refuses",
    )
    .requires_arg("stay")
}

fn unsure<'a>(alloc: Global) -> Result<Arg<'a>, AllocError> {
    Arg::new(alloc, "unsure")
        .long("unsure")
        .value_name("WORD")
        .value_parser(["again", "stop"].as_slice())
        .help(
            "With --stay, an event that may have aired before the server lost its port isn't left out: again sends it again, so it may air twice; stop ends the run",
        )
        .requires_arg("stay")
}

fn open_again<'a>(alloc: Global) -> Result<Arg<'a>, AllocError> {
    flag(
        alloc,
        "open-again",
        "With --resume, after the server was lost: a new run, from the first event that isn't reported",
    )
    .requires_arg("resume")?
    .conflicts_with("journal")
}
