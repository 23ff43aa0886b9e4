//! The recorder of a run, which writes the rows.
ghost use Rattle.std.specs.Duration.{as_nanos};
ghost use Rattle.std.specs.Io.KnownBytes.{Appends};
ghost use Rattle.std.specs.Option.{option_copied, option_to_list};
ghost use Rattle.std.specs.Prelude.{◌≡◌, ◌≢◌, ◌≤◌, ◌⊎◌, ◌/◌, [], ◌++◌, Err, IfErr, IfOk, IfSome, IsTrue, None, OnErr, OnOk, false, min, true};
ghost use Rattle.vdcp_list.specs.Asrun.{AppendsBeginning};
ghost use Rattle.vdcp_journal.specs.Rows.{AreBytesOf, fields_text, heading_fields, rows_text};
ghost use Rattle.vdcp_journal.specs.declared.moment.Moment.{Moment};
ghost use Rattle.vdcp_journal.specs.Thinned.{asks_state};
ghost use Rattle.vdcp_journal_file.specs.Recorded.{KeepsRow, LosesRow, MayHold, call_note};
ghost use Rattle.vdcp_journal_file.specs.Recording.{Adds, AddsBeginning, BeganWith, FitHeldRows, IsSynced, IsUnwritten, MakesBeginning, MakesSafe, Recording, after_row, ended, from_rows, outcome_rows, rows_due, rows_left, with_play};
ghost use Rattle.vdcp_journal_file.specs.declared.pending.Pending.TheVariants.{Failed, Nothing};
ghost use Rattle.vdcp_journal_file.specs.declared.pending.RecordFault.{RecordFault};
ghost use Rattle.vdcp_journal_file.specs.declared.pending.RecordFault.TheVariants.{Replaced};

use crate::disk::{Disk, append_safely};
use crate::pending::{HeldBytes, Pending, RecordFault};
use arrayvec::ArrayVec;
use std::alloc::Global;
use std::marker::Model;
use std::rt::{Clock, Files};
use std::time::Duration;
use vdcp_auto::{Controller, Heard, Outcome, Source};
use vdcp_drive::{Call, Hooks, KeepFault, Next};
use vdcp_journal::{Heading, Moment, Note, Row, write_heading, write_row};
use vdcp_text::Failure;
use vdcp_words::{Command, LONGEST};

/// Writes a journal's rows, that of each command before it goes out, together with what ended the exchange before.
///
/// The row of a command that asks for the state is held back until the next command goes out, and left out if the same was
/// asked and heard just before and is asked again: a clip that plays on writes nothing. A state with the cue done, while
/// a clip plays, announces a PLAY: that goes out at once, and its row is written before the next command.
///
/// After a failure nothing more is written.
#[derive(Drop)]
pub struct Recorder<'a, 'r, R, F: Disk> {
    rt: &'r R,
    name: &'a str,
    unit: u8,
    file: F,
    // The note that the run began with, if one was kept. Its row is in the file.
    from: Option<Note>,
    pub(crate) pending: Pending,
    held: HeldBytes,
}

impl<'a, 'r, R, F: Disk> Model for Recorder<'a, 'r, R, F> {
    ghost use Rattle.std.specs.Prelude.{◌≤◌};
    ghost use Rattle.vdcp_journal_file.specs.Recorded.{MayHold};
    ghost use Rattle.vdcp_journal_file.specs.Recording.{FitHeldRows, IsSynced, Recording};

    ghost Value = { Recording F };

    ghost view = { λ r. record { name = r.name; unit = r.unit; file = r.file; from = r.from; pending = r.pending } };

    ghost invariant = { λ r. (r.unit ≤ 15) × MayHold r.pending
        × IsSynced r.pending (F.safe r.file) (F.written r.file) × FitHeldRows r.unit r.held r.pending };
}

impl<'a, 'r, R: Files + Clock + AllocGlobal, F: Disk + Drop> Recorder<'a, 'r, R, F> {
    /// Begins a journal in an empty file: writes the first row, and that of the event with which the run begins, if one is
    /// noted.
    pub(crate) fn begin(
        rt: &'r R,
        name: &'a str,
        heading: &Heading,
        from: Option<Note>,
        mut file: F,
    ) -> Result<Recorder<'a, 'r, R, F>, Failure<'a>>
        requires { heading.now.unit ≤ 15 }
        ensures begun { IfOk result (λ r. (first time : Moment) × Appends (F.written file) (F.safe r.file)
            (fields_text (heading_fields first heading.now) ++ rows_text heading.now.unit (from_rows time from))) }
        ensures named { IfOk result (λ r. (r.name ≡ name.entry) × (r.unit ≡ heading.now.unit)) }
        ensures from { IfOk result (BeganWith from) }
        ensures unwritten { IfErr result (IsUnwritten name.entry) }
    {
        if let Err(fault) = write_first(rt.alloc(), &now(rt), heading, &mut file) {
            return Err(fault.failure(name));
        }
        let mut recorder = Recorder::after(rt, name, heading.unit, file, Pending::Nothing);
        recorder.keep_from(from)?;
        Ok(recorder)
    }

    /// Goes on with a journal at this unit, in a file that has all but what is pending, and all of it safe.
    pub(crate) fn after(
        rt: &'r R,
        name: &'a str,
        unit: u8,
        file: F,
        pending: Pending,
    ) -> Recorder<'a, 'r, R, F>
        requires unit { unit ≤ 15 }
        requires ends { MayHold pending }
        requires synced { F.safe file ≡ F.written file }
        ensures { result ≡ record { name = name.entry; unit = unit; file = file; from = None; pending = pending } }
    {
        Recorder {
            rt,
            name,
            unit,
            file,
            from: None,
            pending,
            held: HeldBytes {
                asks: None,
                plays: None,
            },
        }
    }

    pub fn name(&self) -> &'a str
        ensures { result ≡ self.now.name }
    {
        self.name
    }

    // Makes safe what is due before the command or call: all that is pending but what says nothing new, and its own row
    // unless that is held back. `bytes` are those of the command; if they are None, they are made for its row.
    fn keep(&mut self, note: Note, bytes: Option<ArrayVec<u8, LONGEST>>) -> Result<(), RecordFault>
        requires { IfSome bytes (λ b. AreBytesOf self.old.unit b.items note) }
        ensures kept { OnOk result (KeepsRow F.safe note self.old self.new) }
        ensures torn { OnErr result (LosesRow F.safe note self.old self.new) }
        ensures failed { IfErr result (λ fault. self.new ≡ record self.old
            { file = self.new.file; pending = Failed fault }) }
        ensures stays { (fault : RecordFault) → self.old.pending ≡ Failed fault →
            (result ≡ Err fault) × (self.new ≡ self.old) }
    {
        let row = Row {
            time: now(self.rt),
            note,
        };
        if asks_state(&row.note) {
            return self.hold(row, bytes);
        }
        if let Some(pending) = self.pending.with_play(row) {
            self.pending = pending;
            self.held.plays = bytes;
            return Ok(());
        }
        self.write(Some(row), bytes.as_ref())
    }

    fn hold(&mut self, row: Row, bytes: Option<ArrayVec<u8, LONGEST>>) -> Result<(), RecordFault>
        requires asks { IsTrue (asks_state row.note) }
        requires spelled { IfSome bytes (λ b. AreBytesOf self.old.unit b.items row.note) }
        ensures kept { OnOk result (MakesSafe F.safe self.old self.new (rows_due self.old.pending row)
            × (self.new ≡ record self.old { file = self.new.file; pending = after_row self.old.pending row })) }
        ensures torn { OnErr result (MakesBeginning F.safe self.old self.new (rows_due self.old.pending row)) }
        ensures failed { IfErr result (λ fault. self.new ≡ record self.old
            { file = self.new.file; pending = Failed fault }) }
        ensures stays { (fault : RecordFault) → self.old.pending ≡ Failed fault →
            (result ≡ Err fault) × (self.new ≡ self.old) }
    {
        let last = self.pending.seen_last();
        if !self.pending.says_nothing_new(row.note) {
            self.write(None, None)?;
        }
        self.pending = Pending::Asked(last, row);
        self.held.asks = bytes;
        Ok(())
    }

    // From then on the journal tells of this run.
    pub(crate) fn keep_from(&mut self, from: Option<Note>) -> Result<(), Failure<'a>>
        requires { self.old.pending ≡ Nothing }
        ensures safe { OnOk result ((time : Moment) × MakesSafe F.safe self.old self.new (from_rows time from)) }
        ensures synced { OnOk result (F.safe self.new.file ≡ F.written self.new.file) }
        ensures rest { OnOk result (self.new ≡ record self.old { file = self.new.file; from = from }) }
        ensures failure { IfErr result (IsUnwritten self.old.name) }
    {
        let time = now(self.rt);
        if let Err(fault) = self.write(from_row(time, from), None) {
            return Err(fault.failure(self.name));
        }
        self.from = from;
        Ok(())
    }

    /// Writes what is pending, and how the controller ended, if it has. The fault is that of the first row that wasn't
    /// written; `Replaced` if the journal's name isn't the file's any more.
    pub fn finish(&mut self, outcome: Option<Outcome>) -> Result<(), RecordFault>
        ensures written { OnOk result ((time : Moment) × Adds F.safe self.old self.new (outcome_rows time outcome)) }
        ensures torn { OnErr result ((time : Moment) × AddsBeginning F.safe self.old self.new
            (outcome_rows time outcome)) }
        ensures rest { OnOk result (self.new ≡ record self.old { file = self.new.file; pending = Nothing }) }
        ensures failed { IfErr result (λ fault. self.new ≡ record self.old
            { file = self.new.file; pending = Failed fault }) }
        ensures replaced { result ≡ Err Replaced → (self.old.pending ≡ Failed Replaced
            ⊎ F.owns self.old.file self.old.name.now false) × (self.new.file ≡ self.old.file) }
        ensures stays { (fault : RecordFault) → self.old.pending ≡ Failed fault → result ≡ Err fault }
    {
        let time = now(self.rt);
        self.write(outcome_row(time, outcome), None)
    }

    fn write(
        &mut self,
        last: Option<Row>,
        bytes: Option<&ArrayVec<u8, LONGEST>>,
    ) -> Result<(), RecordFault>
        requires { IfSome last (λ row. IfSome (option_copied bytes) (λ b. AreBytesOf self.old.unit b.items row.note)) }
        ensures written { OnOk result (Adds F.safe self.old self.new (option_to_list last)) }
        ensures rest { OnOk result (self.new ≡ record self.old { file = self.new.file; pending = Nothing }) }
        ensures torn { OnErr result (AddsBeginning F.safe self.old self.new (option_to_list last)) }
        ensures named { OnOk result (rows_text self.old.unit (rows_left self.old.pending ++ option_to_list last) ≢ [] →
            F.owns self.old.file self.old.name.now true) }
        ensures replaced { result ≡ Err Replaced → (self.old.pending ≡ Failed Replaced
            ⊎ F.owns self.old.file self.old.name.now false) × (self.new.file ≡ self.old.file) }
        ensures failed { IfErr result (λ fault. self.new ≡ record self.old
            { file = self.new.file; pending = Failed fault }) }
        ensures stays { (fault : RecordFault) → self.old.pending ≡ Failed fault →
            (result ≡ Err fault) × (self.new ≡ self.old) }
    {
        match write_rows(
            self.rt,
            self.name,
            self.unit,
            self.pending,
            &self.held,
            last,
            bytes,
            &mut self.file,
        ) {
            Ok(()) => {
                self.pending = Pending::Nothing;
                Ok(())
            }
            Err(fault) => {
                self.pending = Pending::Failed(fault);
                Err(fault)
            }
        }
    }
}

impl<S: Source, R: Files + Clock + AllocGlobal, F: Disk + Drop> Hooks<S>
    for Recorder<'_, '_, R, F> {
    ghost use Rattle.std.specs.Prelude.{◌≡◌};
    ghost use Rattle.vdcp_journal_file.specs.Recorded.{Loses, Notes};
    ghost use Rattle.vdcp_journal_file.specs.Recording.{Recording};

    ghost Journal = { Recording F };

    ghost journal = { λ r. r };

    ghost asks = { λ _ _ _ old new. new ≡ old };

    ghost adds = { Notes F.safe };

    ghost loses = { Loses F.safe };

    fn due(&mut self, _controller: &Controller<S>) -> Next {
        Next::GoOn
    }

    fn keep_sent(&mut self, unit: u8, command: &Command, bytes: &[u8]) -> Result<(), KeepFault> {
        // (the row has the bytes to the journal's own unit)
        let bytes = if unit == self.unit {
            ArrayVec::try_from(bytes).ok()
        } else {
            None
        };
        match self.keep(Note::Sent(*command), bytes) {
            Ok(()) => Ok(()),
            Err(_) => Err(KeepFault),
        }
    }

    fn note_end(&mut self, heard: Option<Heard>) {
        self.pending = self.pending.ended(now(self.rt), heard);
    }

    fn keep_call(&mut self, call: Call) -> Result<(), KeepFault> {
        match self.keep(note_of_call(call), None) {
            Ok(()) => Ok(()),
            Err(_) => Err(KeepFault),
        }
    }
}

fn from_row(time: Moment, from: Option<Note>) -> Option<Row>
    ensures { option_to_list result ≡ from_rows time from }
{
    match from {
        Some(note) => Some(Row { time, note }),
        None => None,
    }
}

fn outcome_row(time: Moment, outcome: Option<Outcome>) -> Option<Row>
    ensures { option_to_list result ≡ outcome_rows time outcome }
{
    match outcome {
        Some(outcome) => Some(Row {
            time,
            note: Note::End(outcome),
        }),
        None => None,
    }
}

fn asks_state(note: &Note) -> bool
    ensures { result ≡ asks_state note.now }
{
    matches!(note, Note::Sent(Command::Status(_)))
}

fn note_of_call(call: Call) -> Note
    ensures { result ≡ call_note call }
{
    match call {
        Call::Take => Note::Take,
        Call::Stop => Note::Stop,
        Call::List(call) => Note::List(call),
    }
}

/// A clock that fails shows 1970.
pub(crate) fn now<R: Clock>(rt: &R) -> Moment {
    let millis = match rt.since_1970() {
        Ok(time) => millis_of(time),
        Err(_) => 0,
    };
    Moment::of_unix_millis(millis)
}

fn millis_of(time: Duration) -> u64
    ensures { result ≡ min (as_nanos time / 1_000_000) u64.MAX }
{
    u64::try_from(time.as_millis()).unwrap_or(u64::MAX)
}

fn write_first<F: Disk>(
    alloc: Global,
    time: &Moment,
    heading: &Heading,
    file: &mut F,
) -> Result<(), RecordFault>
    ensures first { OnOk result (Appends (F.written file.old) (F.safe file.new)
        (fields_text (heading_fields time.now heading.now))) }
    ensures synced { OnOk result (F.safe file.new ≡ F.written file.new) }
{
    let text = first_text(alloc, time, heading)?;
    match append_safely(file, text.as_slice()) {
        Ok(()) => Ok(()),
        Err(_) => Err(RecordFault::Device),
    }
}

pub(crate) fn heading_text<R: Clock + AllocGlobal>(
    rt: &R,
    heading: &Heading,
) -> Result<Vec<u8>, RecordFault>
    ensures { IfOk result (λ text. (time : Moment)
        × (text.items ≡ fields_text (heading_fields time heading.now))) }
{
    first_text(rt.alloc(), &now(rt), heading)
}

fn first_text(alloc: Global, time: &Moment, heading: &Heading) -> Result<Vec<u8>, RecordFault>
    ensures { IfOk result (λ text. text.items ≡ fields_text (heading_fields time.now heading.now)) }
{
    let mut text = Vec::new(alloc);
    write_heading(alloc, time, heading, &mut text)?;
    Ok(text)
}

// A file that has lost its name gets nothing more.
fn write_rows<R: Files + AllocGlobal, F: Disk>(
    rt: &R,
    name: &str,
    unit: u8,
    left: Pending,
    held: &HeldBytes,
    last: Option<Row>,
    bytes: Option<&ArrayVec<u8, LONGEST>>,
    file: &mut F,
) -> Result<(), RecordFault>
    requires unit { unit ≤ 15 }
    requires held { FitHeldRows unit held.now left }
    requires spelled { IfSome last (λ row. IfSome (option_copied bytes) (λ b. AreBytesOf unit b.items row.note)) }
    requires synced { IsSynced left (F.safe file.old) (F.written file.old) }
    ensures all { OnOk result (Appends (F.safe file.old) (F.safe file.new)
        (rows_text unit (rows_left left ++ option_to_list last))) }
    ensures synced { OnOk result (F.safe file.new ≡ F.written file.new) }
    ensures beginning { OnErr result (AppendsBeginning (F.safe file.old) (F.safe file.new)
        (rows_text unit (rows_left left ++ option_to_list last))) }
    ensures named { OnOk result (rows_text unit (rows_left left ++ option_to_list last) ≢ [] →
        F.owns file.old name.now true) }
    ensures replaced { result ≡ Err Replaced →
        (left ≡ Failed Replaced ⊎ F.owns file.old name.now false) × (file.new ≡ file.old) }
    ensures refused { (fault : RecordFault) → left ≡ Failed fault → (result ≡ Err fault) × (file.new ≡ file.old) }
{
    let alloc = rt.alloc();
    let mut text = Vec::new(alloc);
    left.add_to(alloc, unit, held, &mut text)?;
    if let Some(row) = last {
        write_row(alloc, unit, &row, bytes, &mut text)?;
    }
    if text.is_empty() {
        return Ok(());
    }
    if !file.is_named(rt, name) {
        return Err(RecordFault::Replaced);
    }
    match append_safely(file, text.as_slice()) {
        Ok(()) => Ok(()),
        Err(_) => Err(RecordFault::Device),
    }
}
