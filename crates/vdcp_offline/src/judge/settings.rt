//! The settings of `judge`.
use vdcp_auto::Mode;
use vdcp_value::Rate;

#[derive(Clone, Copy, Debug, PartialEq, Eq)]
pub struct JudgeSettings {
    /// The server's unit address, 0 to 15.
    pub unit: u8,
    /// The rate of the list's time codes.
    pub rate: Rate,
    pub mode: Mode,
}
