//! What a reader gives for bytes and at a silence.
use crate::message::{Fault, Message};

#[derive(Clone, Copy, Debug, PartialEq, Eq)]
pub enum Got<'a> {
    /// Feed the bytes after it next.
    Message(Message<'a>),
    /// All bytes are taken: feed more, or tell of the silence.
    More,
    /// A fault, and its place in the burst, from 1. The rest of the burst isn't read.
    Fault(Fault, usize),
}

/// How a burst ended, at a silence.
#[derive(Clone, Copy, Debug, PartialEq, Eq)]
pub enum Ended {
    Clean,
    /// Inside a message, of which this many bytes came.
    Cut(usize),
    /// The fault was given when it came.
    AfterFault,
}
