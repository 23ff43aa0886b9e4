//! The codes that calls answer with.

pub(crate) const OK: i32 = 0;
/// The struct is none that a call has made, or not over this list or these clips. Nothing has changed.
pub(crate) const BAD_STATE: i32 = 100;
/// The message's struct is none.
pub(crate) const BAD_MESSAGE: i32 = 101;
/// The struct, the message or the text is no command, or no reply, of this profile.
pub(crate) const BAD_COMMAND: i32 = 102;
/// A number is out of its range.
pub(crate) const BAD_VALUE: i32 = 103;
/// The room is too small.
pub(crate) const SHORT_ROOM: i32 = 104;
/// The IDs of the table don't ascend.
pub(crate) const BAD_TABLE: i32 = 105;
