//! How an as-run list with times is written.
ghost use Rattle.csv.specs.Writing.{default_writer, fields_written, has_written, row_text, text_written, writer_setup};
ghost use Rattle.std.specs.Io.KnownBytes.{Appends, Keeps};
ghost use Rattle.std.specs.Prelude.{◌≡◌, ◌≢◌, ◌≤◌, ◌+◌, ◌∷◌, [], IfErr, IfOk, IsTrue, List, OnOk, Some, drop, false, length, take, ℕ};
ghost use Rattle.vdcp_list.specs.Asrun.{AppendsBeginning, are_lawful, has_part, is_lawful_event};
ghost use Rattle.vdcp_list.specs.Timed.{timed_fields, timed_heading, timed_rows, times_of};
ghost use Rattle.vdcp_list.specs.declared.faults.WriteFault.TheVariants.{Device};

use crate::asrun::{check_parts, has_part, show_number, show_part, text_in, write_out};
use crate::faults::WriteFault;
use arrayvec::ArrayString;
use csv::{Error, Writer, WriterBuilder};
use std::alloc::Allocator;
use std::io::Write;
use vdcp_auto::Source;
use vdcp_value::{Item, Rate};

/// The times of an event, and what its end was, as texts.
pub trait Timed {
    ghost played: { Self → List ℕ };

    ghost known: { Self → List ℕ };

    ghost ended: { Self → List ℕ };

    ghost end: { Self → List ℕ };

    /// When the event's last PLAY went out.
    fn played(&self) -> &[u8]
        ensures { result.now ≡ played self.now };

    /// When the event was known to have aired.
    fn known(&self) -> &[u8]
        ensures { result.now ≡ known self.now };

    /// When its end was seen; empty if it wasn't.
    fn ended(&self) -> &[u8]
        ensures { result.now ≡ ended self.now };

    /// What its end was.
    fn end(&self) -> &[u8]
        ensures { result.now ≡ end self.now };
}

/// Writes the heading of a timed as-run list: the columns of `write_asrun`, and four more.
pub fn write_timed_heading<S: Source, W: Write, A: Allocator>(
    alloc: A,
    source: &S,
    writer: &mut W,
) -> Result<(), WriteFault>
    ensures ok { OnOk result (Appends (W.contents writer.old) (W.contents writer.new)
        (row_text default_writer (timed_heading (has_part (S.items source.now))))) }
    ensures kept { IfErr result (λ fault. fault ≢ Device → Keeps (W.contents writer.old) (W.contents writer.new)) }
    ensures beginning { IfErr result (λ fault. fault ≡ Device
        → AppendsBeginning (W.contents writer.old) (W.contents writer.new)
        (row_text default_writer (timed_heading (has_part (S.items source.now))))) }
{
    let with_parts = has_part(source, 0, false);
    let text = heading_text(&alloc, with_parts)?;
    write_out(writer, text.as_slice())
}

/// Writes the rows of `write_events`, one for each of `times`, and in each the event's times and what its end was.
pub fn write_timed_events<S: Source, T: Timed, W: Write, A: Allocator>(
    alloc: A,
    source: &S,
    rate: Rate,
    from: usize,
    times: &[T],
    writer: &mut W,
) -> Result<(), WriteFault>
    requires { from + length times.now ≤ length (S.items source.now) }
    ensures ok { OnOk result (Appends (W.contents writer.old) (W.contents writer.new)
        (timed_rows (times_of T.played T.known T.ended T.end) rate (has_part (S.items source.now)) from (drop from (S.items source.now))
        times.now)) }
    ensures kept { IfErr result (λ fault. fault ≢ Device → Keeps (W.contents writer.old) (W.contents writer.new)) }
    ensures beginning { IfErr result (λ fault. fault ≡ Device
        → AppendsBeginning (W.contents writer.old) (W.contents writer.new)
        (timed_rows (times_of T.played T.known T.ended T.end) rate (has_part (S.items source.now)) from (drop from (S.items source.now))
        times.now)) }
{
    let end = from + times.len();
    let among = check_parts(source, rate, end)?;
    let with_parts = has_part(source, end, among);
    let text = timed_text(&alloc, source, rate, with_parts, from, times)?;
    write_out(writer, text.as_slice())
}

/// It is written to memory, so that only want of memory can refuse it.
fn heading_text<'a, A: Allocator>(
    alloc: &'a A,
    with_parts: bool,
) -> Result<Vec<u8, &'a A>, WriteFault>
    ensures text { IfOk result (λ text. text.items ≡ row_text default_writer (timed_heading with_parts)) }
    ensures memory { IfErr result (λ fault. fault ≡ WriteFault.Memory) }
{
    let mut rows = WriterBuilder::new().from_writer(Vec::new(alloc));
    let is_written = write_heading(&mut rows, with_parts).is_ok();
    text_in(rows, is_written)
}

fn timed_text<'a, S: Source, T: Timed, A: Allocator>(
    alloc: &'a A,
    source: &S,
    rate: Rate,
    with_parts: bool,
    from: usize,
    times: &[T],
) -> Result<Vec<u8, &'a A>, WriteFault>
    requires within { from + length times.now ≤ length (S.items source.now) }
    requires lawful { IsTrue (are_lawful rate (take (from + length times.now) (S.items source.now))) }
    ensures text { IfOk result (λ text. text.items
        ≡ timed_rows (times_of T.played T.known T.ended T.end) rate with_parts from (drop from (S.items source.now)) times.now) }
    ensures memory { IfErr result (λ fault. fault ≡ WriteFault.Memory) }
{
    let mut rows = WriterBuilder::new().from_writer(Vec::new(alloc));
    let mut number = String::new(alloc);
    let is_written = write_rows(
        source,
        rate,
        with_parts,
        from,
        times,
        &mut number,
        &mut rows,
    );
    text_in(rows, is_written)
}

fn write_rows<S: Source, T: Timed, A: Allocator>(
    source: &S,
    rate: Rate,
    with_parts: bool,
    from: usize,
    times: &[T],
    number: &mut String<A>,
    rows: &mut Writer<Vec<u8, A>>,
) -> bool
    requires within { from + length times.now ≤ length (S.items source.now) }
    requires lawful { IsTrue (are_lawful rate (take (from + length times.now) (S.items source.now))) }
    requires setup { writer_setup rows.old ≡ default_writer }
    requires ended { fields_written rows.old ≡ 0 }
    requires clean { has_written rows.old ≡ false }
    requires empty { text_written (λ text. Some text.items) rows.old ≡ Some [] }
    ensures { IsTrue result → text_written (λ text. Some text.items) rows.new ≡ Some
        (timed_rows (times_of T.played T.known T.ended T.end) rate with_parts from (drop from (S.items source.now)) times.now) }
{
    for k in 0..times.len() {
        if show_number(from + k, number).is_err() {
            return false;
        }
        let item = source.at(from + k);
        let time = &times[k];
        if write_event(rows, number.as_str(), &item, rate, with_parts, time).is_err() {
            return false;
        }
    }
    true
}

fn write_heading<W: Write + Drop>(rows: &mut Writer<W>, with_parts: bool) -> Result<(), Error>
    requires setup { writer_setup rows.old ≡ default_writer }
    requires ended { fields_written rows.old ≡ 0 }
    requires clean { has_written rows.old ≡ false }
    ensures text { OnOk result (Appends (text_written W.contents rows.old) (text_written W.contents rows.new)
        (row_text default_writer (timed_heading with_parts))) }
    ensures setup { OnOk result (writer_setup rows.new ≡ default_writer) }
    ensures ended { OnOk result (fields_written rows.new ≡ 0) }
    ensures clean { OnOk result (has_written rows.new ≡ false) }
{
    if with_parts {
        return rows.write_fields(&[
            b"number",
            b"id",
            b"start",
            b"duration",
            b"played",
            b"known",
            b"ended",
            b"end",
        ]);
    }
    rows.write_fields(&[b"number", b"id", b"played", b"known", b"ended", b"end"])
}

fn write_event<T: Timed, W: Write + Drop>(
    rows: &mut Writer<W>,
    number: &str,
    item: &Item,
    rate: Rate,
    with_parts: bool,
    time: &T,
) -> Result<(), Error>
    requires lawful { IsTrue (is_lawful_event rate item.now.part) }
    requires setup { writer_setup rows.old ≡ default_writer }
    requires ended { fields_written rows.old ≡ 0 }
    requires clean { has_written rows.old ≡ false }
    ensures text { OnOk result (Appends (text_written W.contents rows.old) (text_written W.contents rows.new)
        (row_text default_writer (number.now ∷ timed_fields rate with_parts item.now (times_of T.played T.known T.ended T.end time.now)))) }
    ensures setup { OnOk result (writer_setup rows.new ≡ default_writer) }
    ensures ended { OnOk result (fields_written rows.new ≡ 0) }
    ensures clean { OnOk result (has_written rows.new ≡ false) }
{
    let mut id = ArrayString::new();
    item.id.show(&mut id);
    if !with_parts {
        return rows.write_fields(&[
            number.as_bytes(),
            id.as_bytes(),
            time.played(),
            time.known(),
            time.ended(),
            time.end(),
        ]);
    }
    let mut start = ArrayString::new();
    let mut duration = ArrayString::new();
    show_part(rate, item.part, &mut start, &mut duration);
    rows.write_fields(&[
        number.as_bytes(),
        id.as_bytes(),
        start.as_bytes(),
        duration.as_bytes(),
        time.played(),
        time.known(),
        time.ended(),
        time.end(),
    ])
}
