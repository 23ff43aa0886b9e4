//! When the first event of a run goes to air, for whoever waits at a terminal.
use jiff::Timestamp;
use jiff::civil::{Date, DateTime};
use jiff::tz::{SystemTimeZone, TimeZoneDatabase};
use std::io::Write;
use std::rt::Clock;
use std::time::Duration;
use vdcp_line::System;

/// Tells by the zone's clock when the first event goes to air, and in how long. `start` is since 1970.
pub fn tell_start<E: Write>(system: &System<'_>, start: Duration, err: &mut E) {
    let Ok(now) = system.since_1970() else {
        return;
    };
    let (Some(shown), Some(today)) = (shown_here(system, start), shown_here(system, now)) else {
        return;
    };
    let day = day_of(shown.date(), today.date());
    let left = start.saturating_sub(now).as_secs();
    let (hours, minutes, seconds) = (left / 3600, left / 60 % 60, left % 60);
    // (that it can't be told keeps no run from its start)
    let _ = writeln!(
        err,
        "  starts {day}{shown}, in {hours}:{minutes:02}:{seconds:02}"
    );
}

fn day_of(day: Date, today: Date) -> &'static str {
    if day == today {
        return "today, ";
    }
    match today.tomorrow() {
        Ok(tomorrow) if day == tomorrow => "tomorrow, ",
        _ => "",
    }
}

fn shown_here(system: &System<'_>, time: Duration) -> Option<DateTime> {
    let Ok(seconds) = i64::try_from(time.as_secs()) else {
        return None;
    };
    let (Ok(time), Ok(database), Ok(zone)) = (
        Timestamp::from_second(seconds),
        TimeZoneDatabase::from_env(system.rt),
        SystemTimeZone::read(system.rt),
    ) else {
        return None;
    };
    match zone.time_zone(&database) {
        Ok(zone) => Some(zone.to_datetime(time)),
        Err(_) => None,
    }
}
