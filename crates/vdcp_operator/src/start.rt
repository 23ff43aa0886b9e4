//! The time at which the first event goes to air, from its text.
ghost use Rattle.jiff.specs.Words.{plain_zone};
ghost use Rattle.std.specs.Duration.{as_nanos};
ghost use Rattle.std.specs.Prelude.{◌≡◌, IfOk, IfSome, pos};
ghost use Rattle.vdcp_operator.specs.Starts.{IsDateAt, IsMeant, IsNext, IsNextAt, IsOnDay, IsStart, first_after, if_after};

use jiff::Timestamp;
use jiff::civil::{Date, Time};
use jiff::tz::{SystemTimeZone, TimeZone, TimeZoneDatabase};
use std::rt::{Clock, Env, Files};
use std::str::FromStr;
use std::time::Duration;
use thiserror::Error;

#[derive(Clone, Copy, Debug, PartialEq, Eq, Error)]
pub enum StartFault {
    #[error("at: no time")]
    NoTime,
    #[error("at: past")]
    Past,
    /// The zone that `TZ` names, or the system's, can't be had, or the clock can't be read.
    #[error("at: no zone")]
    NoZone,
}

/// The time since 1970 that a text means: one of RFC 3339, or `HH:MM:SS`, the next time at which a clock shows that in
/// the zone that `TZ` names, or else in the system's.
pub fn start_of<R: Env + Files + Clock + AllocGlobal + Clone + Drop>(
    rt: &R,
    text: &str,
) -> Result<Duration, StartFault>
    ensures { IfOk result (λ start. IsStart text.now (pos (as_nanos start))) }
{
    let Ok(now) = Timestamp::now(rt) else {
        return Err(StartFault::NoZone);
    };
    let time = meant_by(rt, now, text)?;
    if time.as_nanosecond() <= now.as_nanosecond() {
        return Err(StartFault::Past);
    }
    match since_1970(time) {
        Some(start) => Ok(start),
        None => Err(StartFault::NoTime),
    }
}

fn meant_by<R: Env + Files + AllocGlobal + Clone + Drop>(
    rt: &R,
    now: Timestamp,
    text: &str,
) -> Result<Timestamp, StartFault>
    ensures { IfOk result (λ then. IsMeant text.now now then) }
{
    match Timestamp::from_str(text) {
        Ok(time) => Ok(time),
        Err(_) => time_of_day(rt, now, text),
    }
}

fn since_1970(time: Timestamp) -> Option<Duration>
    ensures { IfSome result (λ start. pos (as_nanos start) ≡ time.nanosecond) }
{
    match u64::try_from(time.as_nanosecond()) {
        Ok(nanoseconds) => Some(Duration::from_nanos(nanoseconds)),
        Err(_) => None,
    }
}

fn time_of_day<R: Env + Files + AllocGlobal + Clone + Drop>(
    rt: &R,
    now: Timestamp,
    text: &str,
) -> Result<Timestamp, StartFault>
    ensures { IfOk result (λ then. IsMeant text.now now then) }
{
    match Time::from_str(text) {
        Ok(time) if is_clock_time(text) => {
            let then = next_at(rt, now, time)?;
            Ok(then)
        }
        _ => Err(StartFault::NoTime),
    }
}

// (a time of day that is parsed may lack its seconds, have a zone behind, or a leap second)
fn is_clock_time(text: &str) -> bool {
    matches!(text.as_bytes(), [_, _, b':', _, _, b':', b'0'..=b'5', _])
}

fn next_at<R: Env + Files + AllocGlobal + Clone + Drop>(
    rt: &R,
    now: Timestamp,
    time: Time,
) -> Result<Timestamp, StartFault>
    ensures { IfOk result (λ then. IsNext now time then) }
{
    let (Ok(database), Ok(system)) = (TimeZoneDatabase::from_env(rt), SystemTimeZone::read(rt))
    else {
        return Err(StartFault::NoZone);
    };
    match system.time_zone(&database) {
        Ok(zone) => next_in(zone, now, time),
        Err(_) => Err(StartFault::NoZone),
    }
}

fn next_in(zone: TimeZone<'_>, now: Timestamp, time: Time) -> Result<Timestamp, StartFault>
    ensures { IfOk result (λ then. IsNextAt (plain_zone zone.entry) now time then) }
{
    let today = date_in(zone, now);
    let Ok(tomorrow) = today.tomorrow() else {
        return Err(StartFault::NoTime);
    };
    match first_after(now, on_day(today, time, zone), on_day(tomorrow, time, zone)) {
        Some(then) => Ok(then),
        None => Err(StartFault::NoTime),
    }
}

fn date_in(zone: TimeZone<'_>, now: Timestamp) -> Date
    ensures { IsDateAt (plain_zone zone.entry) now result }
{
    zone.to_datetime(now).date()
}

fn first_after(
    now: Timestamp,
    on_today: Option<Timestamp>,
    on_tomorrow: Option<Timestamp>,
) -> Option<Timestamp>
    ensures { result ≡ first_after now on_today on_tomorrow }
{
    match if_after(now, on_today) {
        Some(then) => Some(then),
        None => if_after(now, on_tomorrow),
    }
}

fn if_after(now: Timestamp, then: Option<Timestamp>) -> Option<Timestamp>
    ensures { result ≡ if_after now then }
{
    match then {
        Some(then) if now.as_nanosecond() < then.as_nanosecond() => Some(then),
        _ => None,
    }
}

fn on_day(day: Date, time: Time, zone: TimeZone<'_>) -> Option<Timestamp>
    ensures { IsOnDay day time (plain_zone zone.entry) result }
{
    match day.to_datetime(time).to_zoned(zone) {
        Ok(then) => Some(then.timestamp()),
        Err(_) => None,
    }
}
