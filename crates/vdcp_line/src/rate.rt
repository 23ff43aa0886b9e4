//! The option `--rate`.
ghost use Rattle.clap.specs.Matches.{found_of};
ghost use Rattle.std.specs.Prelude.{◌≡◌, ◌≢◌, codes, IfSome, None};
ghost use Rattle.vdcp_line.specs.Options.{GivesRate, NamesRate};
ghost use Rattle.vdcp_value.specs.declared.rate.Rate.{Rate};

use clap::{Arg, ArgMatches};
use std::alloc::Global;
use vdcp_value::Rate;

pub fn rate_option<'a>(alloc: Global) -> Arg<'a> {
    Arg::new(alloc, "rate")
        .long("rate")
        .value_name("R")
        .value_parser(["24", "25", "30", "30df"].as_slice())
        .default_value("25")
        .help("The frame rate of time codes; 30df is drop frame")
}

/// `clap` lets no text through that names none.
pub fn rate_of(matches: &ArgMatches) -> Rate
    ensures { (rate : Rate) → GivesRate (found_of matches.now) (codes "rate") rate → result ≡ rate }
{
    match matches.get_str("rate") {
        Some(text) => rate_named(text).unwrap_or(Rate::F25),
        None => Rate::F25,
    }
}

fn rate_named(name: &str) -> Option<Rate>
    ensures some { IfSome result (NamesRate name.now) }
    ensures none { (rate : Rate) → NamesRate name.now rate → result ≢ None }
{
    match name {
        "24" => Some(Rate::F24),
        "25" => Some(Rate::F25),
        "30" => Some(Rate::F30),
        "30df" => Some(Rate::D30),
        _ => None,
    }
}
