//! What a server is probed with, and which rows are put.
use crate::row::Group;
use vdcp_value::Rate;

#[derive(Clone, Copy, Debug, PartialEq, Eq)]
pub enum Only {
    All,
    /// The rows that can falsify no list.
    Safe,
    Unsafe,
}

impl Only {
    pub fn has(self, group: Group) -> bool {
        match (self, group) {
            (Only::All, _) => true,
            (Only::Safe, Group::Safe) => true,
            (Only::Unsafe, Group::Unaired | Group::Unlisted) => true,
            (Only::Safe, Group::Unaired | Group::Unlisted) | (Only::Unsafe, Group::Safe) => false,
        }
    }
}

#[derive(Clone, Copy, Debug, PartialEq, Eq)]
pub struct ProbeSettings {
    /// The server's unit address, 0 to 15.
    pub unit: u8,
    pub port: u8,
    /// The rate of the catalogue's time codes.
    pub rate: Rate,
    /// An answer ends with such a silence: 1 to 60,000 milliseconds.
    pub silence: u32,
    pub only: Only,
    /// Whether what the port plays may be stopped.
    pub may_stop: bool,
}
