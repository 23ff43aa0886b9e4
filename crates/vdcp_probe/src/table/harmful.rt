//! Rows by which, if a server differs in one, an as-run list can be false.
use super::{FRAME, START};
use crate::row::Ask::{Active, Close, Cue, CuePart, Open, Play, Select, Status, Stop};
use crate::row::Clip::{First, Second, Unknown};
use crate::row::Number::Own;
use crate::row::Row;
use crate::row::Step::{Ask, Bytes, Cut, Damaged, Elsewhere, Framed};

pub(crate) const UNAIRED: [Row; 20] = rows! {
    Unaired;
    "state-idle" Selected [Ask(Status(1))];
    "state-cueing" Selected [Ask(Cue(First)), Ask(Status(1))];
    "state-done" Selected [Ask(Cue(First))] until CueDone;
    "state-playing" Cued [Ask(Play), Ask(Status(1))];
    "state-playing-cueing" Cued [Ask(Play), Ask(Cue(Second)), Ask(Status(1))];
    "state-playing-done" Cued [Ask(Play)] [Ask(Cue(Second))] until CueDone;
    "state-ended" Selected [Ask(CuePart(First, START, FRAME))] until CueDone [Ask(Play)] until ClipEnded;
    "state-after-stop" Cued [Ask(Stop), Ask(Status(1))];
    "status-closed" Closed [Ask(Status(1))];
    "status-open" Open [Ask(Status(1))];
    "play-closed" Closed [Ask(Play)];
    "play-open" Open [Ask(Play)];
    "play-airs" Cued [Ask(Play), Ask(Active)];
    "play-airs-next" Cued [Ask(Play)] [Ask(Cue(Second))] until CueDone [Ask(Play), Ask(Active)];
    "status-keeps-cue" Cued [Ask(Status(1))] [Ask(Status(1))];
    "status-keeps-clip" Cued [Ask(Play), Ask(Status(1)), Ask(Status(1)), Ask(Active)];
    "other-unit-stop" Cued [Elsewhere(Stop)] [Ask(Status(1))];
    "damaged-stop" Cued [Damaged(Stop)] [Ask(Status(1))];
    "cut-stop" Cued [Cut(Stop)] [Ask(Status(1))];
    "stop-after-fault" Cued [Bytes(&[0xff]), Ask(Stop)] [Ask(Status(1))];
};

pub(crate) const UNLISTED: [Row; 21] = rows! {
    Unlisted;
    "play-nothing" Selected [Ask(Play)] [Ask(Status(1))] [Ask(Active)];
    "play-cueing" Selected [Ask(Cue(First)), Ask(Play), Ask(Status(1)), Ask(Active)];
    "play-twice" Selected [Ask(CuePart(First, START, FRAME))] until CueDone [Ask(Play)] until ClipEnded [Ask(Play), Ask(Status(1)), Ask(Active)];
    "play-copied" Cued [Ask(Play), Ask(Play), Ask(Status(1)), Ask(Active)];
    "play-copied-late" Cued [Ask(Play), Ask(Cue(Second)), Ask(Play), Ask(Status(1)), Ask(Active)];
    "cue-replaces-done" Cued [Ask(Cue(Second))] until CueDone [Ask(Play), Ask(Active)];
    "cue-replaces-cueing" Selected [Ask(Cue(First)), Ask(Cue(Second))] until CueDone [Ask(Play), Ask(Active)];
    "cue-copied" Selected [Ask(Cue(First)), Ask(Cue(First))] until CueDone [Ask(Play), Ask(Status(1)), Ask(Active)];
    "cue-keeps-clip" Cued [Ask(Play), Ask(Cue(Second)), Ask(Active)];
    "cue-part-replaces" Cued [Ask(CuePart(Second, START, FRAME))] until CueDone [Ask(Play), Ask(Active)];
    "cue-unknown" Selected [Ask(Cue(Unknown))] [Ask(Status(1))];
    "cue-refused-keeps" Cued [Ask(Cue(Unknown))] [Ask(Play), Ask(Active)];
    "stop-empties-cue" Cued [Ask(Stop)] [Ask(Status(1))] [Ask(Play)] [Ask(Status(1))];
    "close-empties-cue" Cued [Ask(Close(Own))] [Ask(Open(Own))] [Ask(Select(Own))] [Ask(Status(1))];
    "other-unit-play" Cued [Elsewhere(Play)] [Ask(Status(1))];
    "other-unit-cue" Cued [Elsewhere(Cue(Second))] [Ask(Play), Ask(Active)];
    "damaged-play" Cued [Damaged(Play)] [Ask(Status(1))];
    "damaged-cue" Cued [Damaged(Cue(Second))] [Ask(Play), Ask(Active)];
    "cut-play" Cued [Cut(Play)] [Ask(Status(1))];
    "play-after-fault" Cued [Bytes(&[0xff]), Ask(Play)] [Ask(Status(1))];
    "play-with-data" Cued [Framed(1, 0x01, &[0])] [Ask(Status(1))];
};
