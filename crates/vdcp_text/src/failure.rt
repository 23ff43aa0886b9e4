//! The failures of subcommands, each a line and an exit status.
ghost use Rattle.std.specs.Io.KnownBytes.{Appends, Keeps};
ghost use Rattle.std.specs.Prelude.{◌≡◌, ◌⊎◌, ◌<◌};
ghost use Rattle.vdcp_text.specs.Failure.{row_fault_text};

use crate::name::NameText;
use std::alloc::AllocError;
use std::{fmt, io};
use vdcp_value::RowFault;

/// Why a subcommand gives up. A text is the file's name; rows and lines are counted from 1, events from 0.
#[derive(Clone, Copy)]
pub enum Failure<'a> {
    /// The argument isn't an even number of hexadecimal digits.
    Hex,
    /// No command has this name.
    Word,
    /// The number of arguments is wrong, or one isn't the byte, time code or ID that the command takes.
    Arguments,
    /// A word of the command line isn't UTF-8.
    Text,
    Open(&'a str),
    Read(&'a str),
    Row(&'a str, usize, RowFault),
    ScriptLine(&'a str, usize, ScriptLineFault),
    TooManyEvents(&'a str),
    /// The script or capture isn't UTF-8.
    NotText(&'a str),
    /// The capture has no message.
    Empty(&'a str),
    Write(&'a str),
    /// The file that was to be made is the list.
    IsList(&'a str),
    Exists(&'a str),
    /// Another run has locked the file.
    InUse(&'a str),
    JournalRow(&'a str, usize, JournalFault),
    /// The list isn't the journal's.
    NotTheList(&'a str),
    MayHaveAired(usize),
    NoEvent(usize),
    /// It isn't an IPv4 address, a colon and a TCP port.
    Address,
    Connect,
    /// A clip is cued or plays at the port, which has to be empty.
    NotEmpty,
    /// The address can't be listened at, or no connection comes.
    Bind,
    LineFailed,
    LineClosed,
    Unanswered,
    /// The run has made as many listens as it may.
    Spent,
    Memory,
    Writer,
}

impl Failure<'_> {
    ghost use Rattle.vdcp_text.specs.Failure.{failure_line, status_of};

    /// Reports the failure to `err` in one line, none for `Writer`, and gives the exit status: 1 for refused data, a port
    /// that isn't empty and an event that no run begins with, 2 for `Text` and `Address`, 3 for the rest or if `err` fails.
    pub fn report<E: io::Write>(self, err: &mut E) -> u8
        ensures status { (result ≡ status_of self.entry) ⊎ (result ≡ 3) }
        ensures told { result < 3 → Appends (E.contents err.old) (E.contents err.new) (failure_line self.entry) }
        ensures quiet { self.entry ≡ Failure.Writer → Keeps (E.contents err.old) (E.contents err.new) }
    {
        if let Failure::Writer = self {
            return 3;
        }
        match writeln!(err, "vdcp: {self}") {
            Ok(()) => self.status(),
            Err(_) => 3,
        }
    }

    fn status(self) -> u8
        ensures { result ≡ status_of self.entry }
    {
        match self {
            Failure::Hex | Failure::Word | Failure::Arguments | Failure::NotEmpty => 1,
            Failure::Row(..) | Failure::ScriptLine(..) | Failure::JournalRow(..) => 1,
            Failure::TooManyEvents(_) | Failure::NotText(_) | Failure::Empty(_) => 1,
            Failure::NotTheList(_) => 1,
            Failure::MayHaveAired(_) | Failure::NoEvent(_) => 1,
            Failure::Text | Failure::Address => 2,
            Failure::Open(_) | Failure::Read(_) | Failure::Write(_) | Failure::IsList(_) => 3,
            Failure::Exists(_) | Failure::InUse(_) => 3,
            Failure::Connect | Failure::Bind => 3,
            Failure::LineFailed | Failure::LineClosed | Failure::Unanswered | Failure::Spent => 3,
            Failure::Memory | Failure::Writer => 3,
        }
    }
}

impl<'a> Failure<'a> {
    ghost use Rattle.vdcp_text.specs.Failure.{failure_text, words_text};

    fn words(self) -> Words<'a>
        ensures { words_text result ≡ failure_text self.entry }
    {
        match self {
            Failure::Hex => Words::Plain("hex"),
            Failure::Word => Words::Plain("word"),
            Failure::Arguments => Words::Plain("arguments"),
            Failure::Text => Words::Plain("text"),
            Failure::Open(name) => Words::File(name, ": cannot open"),
            Failure::Read(name) => Words::File(name, ": read"),
            Failure::Row(name, row, fault) => {
                Words::Place(name, ": row ", row, row_fault_text(fault))
            }
            Failure::ScriptLine(name, line, fault) => {
                Words::Place(name, ": line ", line, fault.text())
            }
            Failure::TooManyEvents(name) => Words::File(name, ": too many"),
            Failure::NotText(name) => Words::File(name, ": text"),
            Failure::Empty(name) => Words::File(name, ": empty"),
            Failure::Write(name) => Words::File(name, ": write"),
            Failure::IsList(name) => Words::File(name, ": exists as the list"),
            Failure::Exists(name) => Words::File(name, ": exists"),
            Failure::InUse(name) => Words::File(name, ": in use"),
            Failure::JournalRow(name, row, fault) => {
                Words::Place(name, ": row ", row, fault.text())
            }
            Failure::NotTheList(name) => Words::File(name, ": not the journal's list"),
            Failure::MayHaveAired(event) => Words::Event("event ", event, " may have aired"),
            Failure::NoEvent(event) => Words::Event("no event ", event, ""),
            Failure::Address => Words::Plain("address"),
            Failure::Connect => Words::Plain("cannot connect"),
            Failure::NotEmpty => Words::Plain("port not empty"),
            Failure::Bind => Words::Plain("cannot bind"),
            Failure::LineFailed => Words::Plain("line failed"),
            Failure::LineClosed => Words::Plain("line closed"),
            Failure::Unanswered => Words::Plain("never answered"),
            Failure::Spent => Words::Plain("spent"),
            Failure::Memory => Words::Plain("memory"),
            Failure::Writer => Words::Plain("write"),
        }
    }
}

// Without it a proof of all arms at once costs several times as much.
#[derive(Clone, Copy)]
enum Words<'a> {
    Plain(&'static str),
    File(&'a str, &'static str),
    Place(&'a str, &'static str, usize, &'static str),
    Event(&'static str, usize, &'static str),
}

impl fmt::Display for Failure<'_> {
    ghost use Rattle.std.specs.Prelude.{Some};
    ghost use Rattle.vdcp_text.specs.Failure.{failure_text};

    ghost output = { λ failure. Some (failure_text failure) };

    fn fmt<W: fmt::Write>(&self, f: &mut fmt::Formatter<W>) -> fmt::Result {
        match self.words() {
            Words::Plain(words) => f.write_str(words),
            Words::File(name, words) => write!(f, "{}{words}", NameText(name)),
            Words::Place(name, place, number, fault) => {
                write!(f, "{}{place}{number}: {fault}", NameText(name))
            }
            Words::Event(before, event, after) => write!(f, "{before}{event}{after}"),
        }
    }
}

impl From<AllocError> for Failure<'_> {
    ghost use Rattle.std.specs.Prelude.{◌≡◌};
    ghost use Rattle.vdcp_text.specs.declared.failure.Failure.TheVariants.{Memory};

    ghost from_gives = { λ _ failure. failure ≡ Memory };

    fn from(_error: AllocError) -> Self {
        Self::Memory
    }
}

/// Why a line of a script or a capture is refused.
#[derive(Clone, Copy)]
pub enum ScriptLineFault {
    /// It hasn't the words of an event, or the form of a capture's line.
    Word,
    /// Its number isn't of its form, or out of its range.
    Number,
    /// Its bytes aren't of their form, or too many.
    Hex,
    Long,
}

impl ScriptLineFault {
    ghost use Rattle.vdcp_text.specs.Failure.{script_line_fault_text};

    fn text(self) -> &'static str
        ensures { result.now ≡ script_line_fault_text self }
    {
        match self {
            ScriptLineFault::Word => "word",
            ScriptLineFault::Number => "number",
            ScriptLineFault::Hex => "hex",
            ScriptLineFault::Long => "long",
        }
    }
}

/// Why a row of a journal is refused. `List`, `Unit`, `Port` and `Limit`: the heading has another than the run.
#[derive(Clone, Copy)]
pub enum JournalFault {
    Empty,
    Columns,
    Time,
    /// Its second field is no word of a journal.
    Word,
    Digest,
    /// It has no mode, or another than the run.
    Mode,
    Number,
    List,
    Unit,
    Port,
    Limit,
    /// It names no command, or one that the controller doesn't send there.
    Command,
    Reply,
    /// It has a text or bytes that its word doesn't take.
    Detail,
    /// The controller doesn't await that there.
    Unawaited,
    /// It names no event to begin with, or one that the list hasn't.
    Event,
    /// It names no outcome, or one that the controller doesn't come to there.
    Outcome,
    Long,
}

impl JournalFault {
    ghost use Rattle.vdcp_text.specs.Failure.{journal_fault_text};

    fn text(self) -> &'static str
        ensures { result.now ≡ journal_fault_text self }
    {
        match self {
            JournalFault::Empty => "empty",
            JournalFault::Columns => "columns",
            JournalFault::Time => "time",
            JournalFault::Word => "word",
            JournalFault::Digest => "digest",
            JournalFault::Mode => "mode",
            JournalFault::Number => "number",
            JournalFault::List => "list",
            JournalFault::Unit => "unit",
            JournalFault::Port => "port",
            JournalFault::Limit => "limit",
            JournalFault::Command => "command",
            JournalFault::Reply => "reply",
            JournalFault::Detail => "detail",
            JournalFault::Unawaited => "unawaited",
            JournalFault::Event => "event",
            JournalFault::Outcome => "outcome",
            JournalFault::Long => "long",
        }
    }
}

fn row_fault_text(fault: RowFault) -> &'static str
    ensures { result.now ≡ row_fault_text fault }
{
    match fault {
        RowFault::Columns => "columns",
        RowFault::Id => "id",
        RowFault::Time => "time",
        RowFault::Twice => "twice",
        RowFault::TooMany => "too many",
        RowFault::Long => "long",
    }
}
