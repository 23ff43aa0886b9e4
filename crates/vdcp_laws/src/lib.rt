//! The laws over controller, port, journal and line together: the contracts of functions that run nothing, which a caller
//! whose proof needs one calls. Begin with `two_ends_keep_the_headline`; `README.md` says which file is about what.
#![tactic(auto)]

mod asrun_lists;
mod greater_limits;
mod killed_runs;
mod lossy_lines;
mod serve_calls;
mod sessions;
mod sessions_at_silences;
mod stays;
mod two_ends;

pub use asrun_lists::{
    an_asrun_list_is_of_what_aired, an_asrun_list_of_a_late_line_is_of_what_aired,
};
pub use greater_limits::a_greater_limit_joins_the_same;
pub use killed_runs::{
    a_killed_run_keeps_the_headline, a_mended_journal_is_gone_on_with,
    an_announced_play_may_go_out_unkept, what_asks_may_go_out_unkept,
};
pub use lossy_lines::what_is_done_is_events;
pub use serve_calls::what_is_left_is_served;
pub use sessions::{
    a_killed_session_is_safe, a_session_keeps_the_headline, sessions_keep_the_headline,
};
pub use sessions_at_silences::a_session_at_silences_keeps_the_headline;
pub use stays::a_kept_port_goes_on;
pub use two_ends::{
    a_carried_run_keeps_the_headline, a_journal_makes_the_automation, a_kill_loses_what_came_since,
    an_answered_connection_is_as_new, ends_in_time_are_a_channel,
    nothing_airs_after_a_complete_end, several_runs_air_each_event_once,
    two_ends_are_a_late_channel, two_ends_keep_the_headline, untorn_turns_are_at_once,
    what_is_never_silent_is_in_time,
};
