//! How an as-run list is written.
ghost use Rattle.csv.specs.Writing.{default_writer, fields_written, has_written, row_text, text_written, writer_setup};
ghost use Rattle.std.specs.Io.KnownBytes.{Appends, Keeps};
ghost use Rattle.std.specs.Prelude.{◌≡◌, ◌≢◌, ◌↔◌, ◌≤◌, ◌+◌, ◌∷◌, [], Err, IfErr, IfOk, IsTrue, OnErr, OnOk, Some, decimal, drop, false, length, string_bytes, take, ℕ};
ghost use Rattle.vdcp_list.specs.Asrun.{AppendsBeginning, IsUnlawful, are_lawful, asrun_text, events_text, has_part, is_lawful_event};
ghost use Rattle.vdcp_list.specs.Playlists.{item_row, part_fields, time_text};
ghost use Rattle.vdcp_list.specs.declared.faults.WriteFault.TheVariants.{Device, Time};
ghost use Rattle.vdcp_value.specs.Bcd.{is_time};

use crate::faults::WriteFault;
use arrayvec::ArrayString;
use csv::{Error, Writer, WriterBuilder};
use std::alloc::{AllocError, Allocator};
use std::io::{ErrorKind, Write};
use vdcp_auto::Source;
use vdcp_value::laws::a_time_code_has_lawful_bytes;
use vdcp_value::{Item, Part, Rate, Timecode};

/// Writes the as-run list of the first `reported` events: a row each, of the event's number from 0 and its ID. If any
/// event of the source has a part, start and duration follow at this rate, both empty for a whole clip. It is CSV with
/// commas, quotes only if needed, and line feeds.
///
/// `Time` is for the first part that isn't lawful at the rate, which no list that was read at it has. Only `Device` may
/// leave a beginning of the text. An interrupted write is made again, and at the end the writer is flushed.
pub fn write_asrun<S: Source, W: Write, A: Allocator>(
    alloc: A,
    source: &S,
    rate: Rate,
    reported: usize,
    writer: &mut W,
) -> Result<(), WriteFault>
    requires { reported ≤ length (S.items source.now) }
    ensures ok { OnOk result (Appends (W.contents writer.old) (W.contents writer.new)
        (asrun_text rate (S.items source.now) reported)) }
    ensures unlawful { (k : ℕ) → (result ≡ Err (Time k)) ↔ IsUnlawful rate (S.items source.now) reported k }
    ensures kept { IfErr result (λ fault. fault ≢ Device → Keeps (W.contents writer.old) (W.contents writer.new)) }
    ensures beginning { IfErr result (λ fault. fault ≡ Device
        → AppendsBeginning (W.contents writer.old) (W.contents writer.new)
        (asrun_text rate (S.items source.now) reported)) }
{
    write_events(alloc, source, rate, 0, reported, writer)
}

/// As `write_asrun`, but of the rows of `count` events from event `from` on. Numbers and columns are those of the whole
/// list, and the parts of the events before are tested, too.
pub fn write_events<S: Source, W: Write, A: Allocator>(
    alloc: A,
    source: &S,
    rate: Rate,
    from: usize,
    count: usize,
    writer: &mut W,
) -> Result<(), WriteFault>
    requires { from + count ≤ length (S.items source.now) }
    ensures ok { OnOk result (Appends (W.contents writer.old) (W.contents writer.new)
        (events_text rate (has_part (S.items source.now)) from (take count (drop from (S.items source.now))))) }
    ensures unlawful { (k : ℕ) → (result ≡ Err (Time k)) ↔ IsUnlawful rate (S.items source.now) (from + count) k }
    ensures kept { IfErr result (λ fault. fault ≢ Device → Keeps (W.contents writer.old) (W.contents writer.new)) }
    ensures beginning { IfErr result (λ fault. fault ≡ Device
        → AppendsBeginning (W.contents writer.old) (W.contents writer.new)
        (events_text rate (has_part (S.items source.now)) from (take count (drop from (S.items source.now))))) }
{
    let end = from + count;
    let among = check_parts(source, rate, end)?;
    let with_parts = has_part(source, end, among);
    let text = events_text(&alloc, source, rate, with_parts, from, count)?;
    write_out(writer, text.as_slice())
}

pub(crate) fn write_out<W: Write>(writer: &mut W, text: &[u8]) -> Result<(), WriteFault>
    ensures ok { OnOk result (Appends (W.contents writer.old) (W.contents writer.new) text.now) }
    ensures device { IfErr result (λ fault. fault ≡ Device) }
    ensures beginning { OnErr result (AppendsBeginning (W.contents writer.old) (W.contents writer.new) text.now) }
{
    write_text(writer, text)?;
    match writer.flush() {
        Ok(()) => Ok(()),
        Err(_) => Err(WriteFault::Device),
    }
}

/// `write` alone says what a failure leaves; `write_all` doesn't.
fn write_text<W: Write>(writer: &mut W, text: &[u8]) -> Result<(), WriteFault>
    ensures ok { OnOk result (Appends (W.contents writer.old) (W.contents writer.new) text.now) }
    ensures device { IfErr result (λ fault. fault ≡ Device) }
    ensures beginning { OnErr result (AppendsBeginning (W.contents writer.old) (W.contents writer.new) text.now) }
{
    let mut written = 0;
    for _ in 0..u64::MAX {
        if written == text.len() {
            return Ok(());
        }
        match writer.write(&text[written..]) {
            Ok(0) => return Err(WriteFault::Device),
            Ok(count) => written += count,
            Err(error) if error.kind() == ErrorKind::Interrupted => {}
            Err(_) => return Err(WriteFault::Device),
        }
    }
    Err(WriteFault::Device)
}

pub(crate) fn check_parts<S: Source>(
    source: &S,
    rate: Rate,
    reported: usize,
) -> Result<bool, WriteFault>
    requires { reported ≤ length (S.items source.now) }
    ensures parts { IfOk result (λ with_parts. with_parts ≡ has_part (take reported (S.items source.now))) }
    ensures lawful { OnOk result (IsTrue (are_lawful rate (take reported (S.items source.now)))) }
    ensures unlawful { IfErr result (λ fault. (k : ℕ) × (fault ≡ Time k)
        × IsUnlawful rate (S.items source.now) reported k) }
{
    let mut with_parts = false;
    for k in 0..reported {
        let item = source.at(k);
        if !is_lawful_event(rate, &item) {
            return Err(WriteFault::Time(k));
        }
        with_parts |= item.part.is_some();
    }
    Ok(with_parts)
}

pub(crate) fn has_part<S: Source>(source: &S, from: usize, among: bool) -> bool
    requires within { from ≤ length (S.items source.now) }
    requires among { among ≡ has_part (take from (S.items source.now)) }
    ensures { result ≡ has_part (S.items source.now) }
{
    if among {
        return true;
    }
    for k in from..source.len() {
        if source.at(k).part.is_some() {
            return true;
        }
    }
    false
}

fn is_lawful_event(rate: Rate, item: &Item) -> bool
    ensures { result ≡ is_lawful_event rate item.now.part }
{
    match item.part {
        None => true,
        Some(part) => is_lawful(rate, part.start) && is_lawful(rate, part.duration),
    }
}

fn is_lawful(rate: Rate, bytes: [u8; 4]) -> bool
    ensures { result ≡ is_time rate bytes }
{
    Timecode::from_bcd(rate, bytes).is_ok()
}

/// It is written to memory, so that only want of memory can refuse it.
fn events_text<'a, S: Source, A: Allocator>(
    alloc: &'a A,
    source: &S,
    rate: Rate,
    with_parts: bool,
    from: usize,
    count: usize,
) -> Result<Vec<u8, &'a A>, WriteFault>
    requires within { from + count ≤ length (S.items source.now) }
    requires lawful { IsTrue (are_lawful rate (take (from + count) (S.items source.now))) }
    ensures text { IfOk result
        (λ text. text.items ≡ events_text rate with_parts from (take count (drop from (S.items source.now)))) }
    ensures memory { IfErr result (λ fault. fault ≡ WriteFault.Memory) }
{
    let mut rows = WriterBuilder::new().from_writer(Vec::new(alloc));
    let mut number = String::new(alloc);
    let is_written = write_rows(
        source,
        rate,
        with_parts,
        from,
        count,
        &mut number,
        &mut rows,
    );
    text_in(rows, is_written)
}

fn write_rows<S: Source, A: Allocator>(
    source: &S,
    rate: Rate,
    with_parts: bool,
    from: usize,
    count: usize,
    number: &mut String<A>,
    rows: &mut Writer<Vec<u8, A>>,
) -> bool
    requires within { from + count ≤ length (S.items source.now) }
    requires lawful { IsTrue (are_lawful rate (take (from + count) (S.items source.now))) }
    requires setup { writer_setup rows.old ≡ default_writer }
    requires ended { fields_written rows.old ≡ 0 }
    requires clean { has_written rows.old ≡ false }
    requires empty { text_written (λ text. Some text.items) rows.old ≡ Some [] }
    ensures { IsTrue result → text_written (λ text. Some text.items) rows.new ≡ Some
        (events_text rate with_parts from (take count (drop from (S.items source.now)))) }
{
    for k in 0..count {
        if show_number(from + k, number).is_err() {
            return false;
        }
        let item = source.at(from + k);
        if write_event(rows, number.as_str(), &item, rate, with_parts).is_err() {
            return false;
        }
    }
    true
}

pub(crate) fn text_in<A: Allocator>(
    rows: Writer<Vec<u8, A>>,
    is_written: bool,
) -> Result<Vec<u8, A>, WriteFault>
    ensures written { OnOk result (IsTrue is_written) }
    ensures text { IfOk result (λ text. Keeps (text_written (λ t. Some t.items) rows) (Some text.items)) }
    ensures memory { IfErr result (λ fault. fault ≡ WriteFault.Memory) }
{
    if !is_written {
        return Err(WriteFault::Memory);
    }
    match rows.into_inner() {
        Ok(text) => Ok(text),
        Err(_) => Err(WriteFault::Memory),
    }
}

pub(crate) fn show_number<A: Allocator>(
    number: usize,
    text: &mut String<A>,
) -> Result<(), AllocError>
    ensures { OnOk result (string_bytes text.new ≡ decimal number) }
{
    text.clear();
    write!(text, "{number}")
}

fn write_event<W: Write + Drop>(
    rows: &mut Writer<W>,
    number: &str,
    item: &Item,
    rate: Rate,
    with_parts: bool,
) -> Result<(), Error>
    requires lawful { IsTrue (is_lawful_event rate item.now.part) }
    requires setup { writer_setup rows.old ≡ default_writer }
    requires ended { fields_written rows.old ≡ 0 }
    requires clean { has_written rows.old ≡ false }
    ensures text { OnOk result (Appends (text_written W.contents rows.old) (text_written W.contents rows.new)
        (row_text default_writer (number.now ∷ item_row rate with_parts item.now))) }
    ensures setup { OnOk result (writer_setup rows.new ≡ default_writer) }
    ensures ended { OnOk result (fields_written rows.new ≡ 0) }
    ensures clean { OnOk result (has_written rows.new ≡ false) }
{
    let mut id = ArrayString::new();
    item.id.show(&mut id);
    if !with_parts {
        return rows.write_fields(&[number.as_bytes(), id.as_bytes()]);
    }
    let mut start = ArrayString::new();
    let mut duration = ArrayString::new();
    show_part(rate, item.part, &mut start, &mut duration);
    rows.write_fields(&[
        number.as_bytes(),
        id.as_bytes(),
        start.as_bytes(),
        duration.as_bytes(),
    ])
}

pub(crate) fn show_part(
    rate: Rate,
    part: Option<Part>,
    start: &mut ArrayString<11>,
    duration: &mut ArrayString<11>,
)
    requires { IsTrue (is_lawful_event rate part) }
    ensures { part_fields rate part ≡ start.new.bytes ∷ duration.new.bytes ∷ [] }
{
    match part {
        None => {
            start.clear();
            duration.clear();
        }
        Some(part) => {
            show_time(rate, part.start, start);
            show_time(rate, part.duration, duration);
        }
    }
}

fn show_time(rate: Rate, bytes: [u8; 4], text: &mut ArrayString<11>)
    requires { IsTrue (is_time rate bytes) }
    ensures { text.new.bytes ≡ time_text rate bytes }
{
    a_time_code_has_lawful_bytes();
    Timecode::from_bcd(rate, bytes).unwrap().show(text);
}
