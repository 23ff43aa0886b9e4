//! A judge as plain data.
use crate::judge::LastCue;
use crate::phase::Mode;

/// All that a judge knows, but for its list.
#[derive(Clone, Copy, Debug, PartialEq, Eq)]
pub struct Notes {
    pub mode: Mode,
    pub settled: usize,
    /// A PLAY's answer never came, and nothing has shown since what became of it.
    pub has_open_play: bool,
    pub may_have_aired: bool,
    pub stopped: bool,
    pub closed: bool,
    pub granted: bool,
    pub last_cue: LastCue,
}
