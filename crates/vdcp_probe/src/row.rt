//! Rows of the port's table, put as questions, and the steps that ask them.

/// What it means for as-run lists if a row differs.
#[derive(Clone, Copy, Debug, PartialEq, Eq)]
pub enum Group {
    Safe,
    /// A list may name an event that didn't air.
    Unaired,
    /// What a list doesn't name may air, or what it names once may air twice.
    Unlisted,
}

#[derive(Clone, Copy)]
pub struct Row {
    pub name: &'static str,
    pub group: Group,
    pub start: Start,
    pub steps: &'static [Step],
}

/// What a port is brought to before a row's steps. Nothing plays, and but for `Cued` nothing is cued.
#[derive(Clone, Copy, Debug, PartialEq, Eq)]
pub enum Start {
    Closed,
    /// It is open, and not selected.
    Open,
    Selected,
    /// It is selected, and the first clip's cue is done.
    Cued,
}

/// A step of a row. Those before `Send` make the burst that it sends.
#[derive(Clone, Copy)]
pub enum Step {
    Ask(Ask),
    Elsewhere(Ask),
    /// It lacks its last byte.
    Cut(Ask),
    /// Its checksum is wrong.
    Damaged(Ask),
    /// A message of this type, 0 to 15, this code and these data, 253 bytes at most.
    Framed(u8, u8, &'static [u8]),
    Bytes(&'static [u8]),
    Send,
    /// The state is asked for until it is this.
    Await(Awaited),
}

#[derive(Clone, Copy, Debug, PartialEq, Eq)]
pub enum Awaited {
    CueDone,
    ClipEnded,
}

#[derive(Clone, Copy, Debug, PartialEq, Eq)]
pub enum Ask {
    Open(Number),
    Close(Number),
    Select(Number),
    Cue(Clip),
    /// A part, by the bytes of its start and of its duration.
    CuePart(Clip, [u8; 4], [u8; 4]),
    Play,
    Stop,
    Status(u8),
    Active,
    Exists(Clip),
    Size(Clip),
}

#[derive(Clone, Copy, Debug, PartialEq, Eq)]
pub enum Number {
    Own,
    Other,
}

#[derive(Clone, Copy, Debug, PartialEq, Eq)]
pub enum Clip {
    First,
    Second,
    /// Its ID is eight bytes FFh.
    Unknown,
}

// Each burst is sent and answered; `until` asks for the state after it.
macro_rules! steps {
    ($([$($step:expr),+] $(until $awaited:ident)?)+) => {
        &[$($($step,)+ $crate::row::Step::Send, $($crate::row::Step::Await($crate::row::Awaited::$awaited),)?)+]
    };
}

pub(crate) use steps;
