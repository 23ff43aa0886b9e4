//! The times of a journal's rows.
ghost use Rattle.jiff.specs.Words.{civil_nanos};
ghost use Rattle.std.specs.Prelude.{◌≡◌, ◌*◌, ◌/◌, IfNone, IfSome, IsFalse, IsTrue, Some, min, pos};
ghost use Rattle.vdcp_journal.specs.Clocks.{clock_text, digit, last_millis};
ghost use Rattle.vdcp_journal.specs.Moments.{fits_place, has_form, is_moment};

use jiff::Timestamp;
use jiff::civil::DateTime;
use jiff::tz::Offset;

/// A time in UTC as a journal writes it: `2026-11-24T09:30:00.000Z`. Its digits need not name a day and hour that exist.
#[derive(Clone, Copy, Debug, PartialEq, Eq)]
pub struct Moment {
    text: [u8; 24],
    pub ghost formed: { IsTrue (is_moment text) },
}

impl Moment {
    ghost use Rattle.jiff.specs.Types.{DateTime};
    ghost use Rattle.vdcp_journal.specs.declared.moment.Moment.{Moment};
    ghost use Rattle.vdcp_journal.specs.Times.{clocked_text, moment_text, no_clock};

    pub fn parse(text: &[u8]) -> Option<Moment>
        ensures read { IfSome result (λ moment. moment_text moment ≡ text.now) }
        ensures none { IfNone result (IsFalse (is_moment text.now)) }
        ensures accepts { (moment : Moment) → moment_text moment ≡ text.now → result ≡ Some moment }
    {
        if !is_moment(text) {
            return None;
        }
        let mut copy = [0; 24];
        copy.copy_from_slice(text);
        Some(Moment { text: copy })
    }

    /// This many milliseconds after 1970 began, in UTC; at the most 9999-12-30T22:00:00Z.
    pub fn of_unix_millis(millis: u64) -> Moment
        ensures shown { (time : DateTime) × (moment_text result ≡ clock_text time)
            × (civil_nanos time ≡ pos (min millis last_millis * 1_000_000)) }
    {
        Moment {
            text: text_of(shown_at(millis)),
        }
    }

    pub fn unclocked() -> Moment
        ensures { moment_text result ≡ no_clock }
    {
        Moment { text: *NO_CLOCK }
    }

    pub fn as_bytes(&self) -> &[u8]
        ensures { result.now ≡ moment_text self.now }
    {
        &self.text
    }

    /// Its text, or nothing if no clock gave it.
    pub fn clocked(&self) -> &[u8]
        ensures { result.now ≡ clocked_text self.now }
    {
        if self.text.as_slice() == NO_CLOCK.as_slice() {
            return &[];
        }
        self.as_bytes()
    }
}

// 0 stands for any digit.
const FORM: &[u8; 24] = b"0000-00-00T00:00:00.000Z";

// A clock that fails shows this, too.
const NO_CLOCK: &[u8; 24] = b"1970-01-01T00:00:00.000Z";

// In milliseconds after 1970 began.
const LAST: u64 = 253_402_207_200_000;

fn shown_at(millis: u64) -> DateTime
    ensures { civil_nanos result ≡ pos (min millis last_millis * 1_000_000) }
{
    let timestamp = Timestamp::from_millisecond(millis.min(LAST) as i64).unwrap();
    Offset::UTC.to_datetime(timestamp)
}

fn text_of(time: DateTime) -> [u8; 24]
    ensures text { result ≡ clock_text time }
    ensures formed { IsTrue (is_moment result) }
{
    let year = time.year().unsigned_abs();
    let month = u16::from(time.month().unsigned_abs());
    let day = u16::from(time.day().unsigned_abs());
    let hour = u16::from(time.hour().unsigned_abs());
    let minute = u16::from(time.minute().unsigned_abs());
    let second = u16::from(time.second().unsigned_abs());
    let millisecond = time.millisecond().unsigned_abs();
    [
        digit(year / 1000),
        digit(year / 100),
        digit(year / 10),
        digit(year),
        b'-',
        digit(month / 10),
        digit(month),
        b'-',
        digit(day / 10),
        digit(day),
        b'T',
        digit(hour / 10),
        digit(hour),
        b':',
        digit(minute / 10),
        digit(minute),
        b':',
        digit(second / 10),
        digit(second),
        b'.',
        digit(millisecond / 100),
        digit(millisecond / 10),
        digit(millisecond),
        b'Z',
    ]
}

fn digit(number: u16) -> u8
    ensures { result ≡ digit number }
{
    b'0' + (number % 10) as u8
}

fn is_moment(text: &[u8]) -> bool
    ensures { result ≡ is_moment text.now }
{
    has_form(FORM, text)
}

fn has_form(form: &[u8], text: &[u8]) -> bool
    ensures { result ≡ has_form form.now text.now }
{
    match form {
        [] => text.is_empty(),
        [place, form @ ..] => match text {
            [] => false,
            [byte, text @ ..] => fits_place(*place, *byte) && has_form(form, text),
        },
    }
}

fn fits_place(place: u8, byte: u8) -> bool
    ensures { result ≡ fits_place place byte }
{
    if place == b'0' {
        byte.is_ascii_digit()
    } else {
        place == byte
    }
}
