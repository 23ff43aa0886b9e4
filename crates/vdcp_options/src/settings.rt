//! The settings of each subcommand but `run`, from its options.
ghost use Rattle.std.specs.Prelude.{◌≤◌};

use clap::ArgMatches;
use vdcp_auto::Mode;
use vdcp_journal_file::AsrunSettings;
use vdcp_line::number::{
    COPY, CUT, DAMAGE, FORGE, LOSE, LOSSY_SILENCE, SEED, SERVE_SILENCE, WITHIN, cue_frames_of,
    idle_of, limit_of, number_of, port_of, run_silence_of, turns_of, unit_of,
};
use vdcp_line::rate::rate_of;
use vdcp_lossy::{Chances, LossySettings};
use vdcp_offline::{JudgeSettings, SimSettings};
use vdcp_probe::{AskSettings, Only, ProbeSettings};
use vdcp_serve::ServeSettings;

/// Confirm mode with `--confirm`, else plain mode.
pub fn mode_of(matches: &ArgMatches) -> Mode {
    if matches.get_flag("confirm") {
        Mode::Confirming
    } else {
        Mode::Plain
    }
}

pub fn sim_settings_of(matches: &ArgMatches) -> SimSettings
    ensures unit { result.unit ≤ 15 }
    ensures some { 1 ≤ result.limit }
    ensures few { result.limit ≤ 1000 }
    ensures some_frames { 1 ≤ result.cue_frames }
    ensures few_frames { result.cue_frames ≤ 1000 }
{
    SimSettings {
        unit: unit_of(matches),
        port: port_of(matches),
        limit: limit_of(matches),
        cue_frames: cue_frames_of(matches),
        mode: mode_of(matches),
        rate: rate_of(matches),
        trace: matches.get_flag("trace"),
    }
}

pub fn serve_settings_of(matches: &ArgMatches) -> ServeSettings
    ensures unit { result.unit ≤ 15 }
    ensures some_frames { 1 ≤ result.cue_frames }
    ensures few_frames { result.cue_frames ≤ 1000 }
    ensures some_silence { 1 ≤ result.silence }
    ensures short_silence { result.silence ≤ 60000 }
{
    let stay = matches.get_flag("stay");
    ServeSettings {
        unit: unit_of(matches),
        port: port_of(matches),
        cue_frames: cue_frames_of(matches),
        rate: rate_of(matches),
        by_clock: matches.get_flag("real-time"),
        silence: number_of(matches, &SERVE_SILENCE),
        turns: turns_of(matches),
        stay,
        idle: idle_of(matches, stay),
    }
}

pub fn asrun_settings_of(matches: &ArgMatches) -> AsrunSettings {
    AsrunSettings {
        rate: rate_of(matches),
        times: matches.get_flag("times"),
    }
}

fn chances_of(matches: &ArgMatches) -> Chances
    ensures lose { result.lose ≤ 100 }
    ensures copy { result.copy ≤ 100 }
    ensures cut { result.cut ≤ 100 }
    ensures damage { result.damage ≤ 100 }
    ensures forge { result.forge ≤ 100 }
{
    Chances {
        lose: number_of(matches, &LOSE) as u8,
        copy: number_of(matches, &COPY) as u8,
        cut: number_of(matches, &CUT) as u8,
        damage: number_of(matches, &DAMAGE) as u8,
        forge: number_of(matches, &FORGE) as u8,
    }
}

pub fn lossy_settings_of(matches: &ArgMatches) -> LossySettings
    ensures lose { result.chances.lose ≤ 100 }
    ensures copy { result.chances.copy ≤ 100 }
    ensures cut { result.chances.cut ≤ 100 }
    ensures damage { result.chances.damage ≤ 100 }
    ensures forge { result.chances.forge ≤ 100 }
    ensures some_silence { 1 ≤ result.silence }
    ensures short_silence { result.silence ≤ 60000 }
    ensures some_time { 1 ≤ result.within }
    ensures short_time { result.within ≤ 60000 }
{
    LossySettings {
        seed: number_of(matches, &SEED),
        chances: chances_of(matches),
        silence: number_of(matches, &LOSSY_SILENCE),
        within: number_of(matches, &WITHIN),
        turns: turns_of(matches),
    }
}

pub fn judge_settings_of(matches: &ArgMatches) -> JudgeSettings {
    JudgeSettings {
        unit: unit_of(matches),
        rate: rate_of(matches),
        mode: mode_of(matches),
    }
}

pub fn probe_settings_of(matches: &ArgMatches) -> ProbeSettings
    ensures unit { result.unit ≤ 15 }
    ensures some_silence { 1 ≤ result.silence }
    ensures short_silence { result.silence ≤ 60000 }
{
    ProbeSettings {
        unit: unit_of(matches),
        port: port_of(matches),
        rate: rate_of(matches),
        silence: run_silence_of(matches),
        only: only_of(matches),
        may_stop: matches.get_flag("yes-it-may-stop"),
    }
}

pub fn ask_settings_of(matches: &ArgMatches) -> AskSettings
    ensures unit { result.unit ≤ 15 }
    ensures some_silence { 1 ≤ result.silence }
    ensures short_silence { result.silence ≤ 60000 }
{
    AskSettings {
        unit: unit_of(matches),
        rate: rate_of(matches),
        silence: run_silence_of(matches),
    }
}

// (`clap` lets no other word through)
fn only_of(matches: &ArgMatches) -> Only {
    match matches.get_str("only") {
        Some("safe") => Only::Safe,
        Some("unsafe") => Only::Unsafe,
        Some(_) | None => Only::All,
    }
}
