//! The port and its table: what it answers to each command.
use crate::access::Access;
use crate::airing::{Clip, Cue, count_clip, count_cue, finish_cue};
use crate::asked::Asked;
use crate::catalogue::{Catalogue, frames_if_playable};
use crate::kept::{Kept, clip_of, cue_of};
use crate::laws;
use std::marker::Model;
use vdcp_frame::Message;
use vdcp_value::{ClipId, Item, Part};
use vdcp_words::{Command, Reply};

/// The command is unknown or refused, or its data has a wrong length (this profile).
const REFUSED: Reply = Reply::Nak(0x01);

/// The server's end of one playout channel, which speaks only in answer. `answer`, `burst_answer` and `answer_into`
/// take what the controller sends; `ready` and `ended`, or `frame` at each frame, take what the clips do.
/// ```text
///        OPEN          SELECT
/// closed ----> open ------------> selected: PLAY CUE and CUE WITH DATA fill the cued slot,
///   ^           |                    |      PLAY moves it to the playing slot once its cue is
///   +-----------+--------------------+      done, STOP empties both
///         CLOSE, which empties both slots
/// ```
#[derive(Drop)]
pub struct Port<C: Catalogue> {
    catalogue: C,
    address: u8,
    number: u8,
    cue_frames: u32,
    access: Access,
    cued: Option<Cue>,
    playing: Option<Clip>,
}

impl<C: Catalogue> Model for Port<C> {
    ghost use Rattle.vdcp_port.specs.Clock.{ClockedPort};

    ghost Value = { ClockedPort };

    ghost use Rattle.vdcp_port.specs.Seen.{seen_state, seen_counts, IsSound};

    ghost view = { λ p. record {
      clips = C.clips p.catalogue;
      cue_frames = p.cue_frames;
      state = seen_state p.address p.number p.access p.cued p.playing;
      counts = seen_counts p.cued p.playing;
    } };

    ghost invariant = { λ p. IsSound (C.clips p.catalogue) p.cue_frames p.address p.cued p.playing };
}

impl<C: Catalogue> Port<C> {
    ghost use Rattle.std.specs.Prelude.{ℕ, ◌≡◌, ◌≤◌, ◌<◌, ◌↔◌, IsTrue, IsSome, IfSome, Some, None};
    ghost use Rattle.vdcp_frame.specs.Message.{content_of};
    ghost use Rattle.vdcp_words.specs.Replies.{IsWritableReply};
    ghost use Rattle.vdcp_words.specs.declared.command.Command.TheVariants as command;
    ghost use Rattle.vdcp_port.specs.Clock.{new_port, answer_to, after_message, aired_by, after_ready, after_ended, after_frame, completes_cue, ends_clip, MeetsRow};
    ghost use Rattle.vdcp_port.specs.Port.{is_selected, state_byte};
    ghost use Rattle.vdcp_port.specs.Row.{command_row, cue_row};

    /// Makes a closed port with empty slots, at which a cue takes one frame. It answers what is sent to `unit`.
    pub fn new(catalogue: C, unit: u8, number: u8) -> Port<C>
        requires { unit ≤ 15 }
        ensures { result ≡ new_port (C.clips catalogue) unit number 1 }
    {
        Port::with_clock(catalogue, unit, number, 1)
    }

    /// As `new`, but each cue takes `cue_frames`.
    pub fn with_clock(catalogue: C, unit: u8, number: u8, cue_frames: u32) -> Port<C>
        requires unit { unit ≤ 15 }
        requires some { 0 < cue_frames }
        requires at_most { cue_frames ≤ 1000 }
        ensures { result ≡ new_port (C.clips catalogue) unit number cue_frames }
    {
        Port {
            catalogue,
            address: unit,
            number,
            cue_frames,
            access: Access::Closed,
            cued: None,
            playing: None,
        }
    }

    ghost use Rattle.vdcp_port.specs.Held.{CanKeep, port_of};

    /// All that the port knows, but for its catalogue; `of_kept` makes the port again.
    pub fn kept(&self) -> Kept
        ensures seen { self.now ≡ port_of self.now.clips result }
        ensures again { CanKeep self.now.clips result }
    {
        Kept {
            unit: self.unit(),
            number: self.number,
            cue_frames: self.cue_frames,
            access: self.access,
            cued: clip_of(self.cued),
            playing: self.playing,
        }
    }

    /// `Kept::stands_over` tests what this requires.
    pub fn of_kept(catalogue: C, kept: &Kept) -> Port<C>
        requires { CanKeep (C.clips catalogue) kept.now }
        ensures { result ≡ port_of (C.clips catalogue) kept.now }
    {
        let cued = cue_of(&catalogue, &kept.cued).unwrap();
        Port {
            catalogue,
            address: kept.unit,
            number: kept.number,
            cue_frames: kept.cue_frames,
            access: kept.access,
            cued,
            playing: kept.playing,
        }
    }

    pub fn unit(&self) -> u8
        ensures unit { result ≡ self.now.state.unit }
        ensures fits { result ≤ 15 }
    {
        self.address
    }

    pub fn number(&self) -> u8
        ensures { result ≡ self.now.state.number }
    {
        self.number
    }

    /// The state byte of VDCP's port status, of which this profile sets four bits: 0, both slots are empty; 1, an item
    /// is cueing; 2, one plays; 7, the cue is done.
    pub fn status_byte(&self) -> u8
        ensures { result ≡ state_byte self.now.state }
    {
        match (self.cued, self.playing) {
            (None, None) => 0x01,
            (None, Some(_)) => 0x04,
            (Some(cue), None) if cue.left > 0 => 0x02,
            (Some(_), None) => 0x80,
            (Some(cue), Some(_)) if cue.left > 0 => 0x06,
            (Some(_), Some(_)) => 0x84,
        }
    }

    /// Completes the cue at once, so that PLAY airs its item; changes nothing if no item is cueing.
    pub fn ready(&mut self)
        ensures { self.new ≡ after_ready self.old }
    {
        self.cued = finish_cue(self.cued);
    }

    /// Empties the playing slot, since what plays has ended.
    pub fn ended(&mut self)
        ensures { self.new ≡ after_ended self.old }
    {
        self.playing = None;
    }

    /// One frame passes at both slots. Says whether the cue is done by it, and whether the clip has ended.
    pub fn frame(&mut self) -> (bool, bool)
        ensures cue { result.0 ≡ completes_cue self.old }
        ensures clip { result.1 ≡ ends_clip self.old }
        ensures next { self.new ≡ after_frame self.old }
    {
        let (cued, is_done) = count_cue(self.cued);
        let (playing, has_ended) = count_clip(self.playing);
        self.cued = cued;
        self.playing = playing;
        (is_done, has_ended)
    }

    /// Takes a message, and gives its answer and the item that goes to air by it. ACK, NAK and what is for another unit
    /// have no answer. `docs/PROTOCOL.md` has the table, which is this profile's.
    pub fn answer(&mut self, message: &Message) -> (Option<Reply>, Option<Item>)
        ensures answer { result.0 ≡ answer_to self.old (content_of message.now) }
        ensures aired { result.1 ≡ aired_by self.old (content_of message.now) }
        ensures next { self.new ≡ after_message self.old (content_of message.now) }
        ensures readable { IfSome result.0 IsWritableReply }
    {
        laws::a_command_is_answered();
        match Asked::of(message, self.unit()) {
            Asked::Nothing => (None, None),
            Asked::NoCommand => (Some(REFUSED), None),
            Asked::Command(command) => {
                let (reply, item) = self.execute(&command);
                (Some(reply), item)
            }
        }
    }

    fn execute(&mut self, command: &Command) -> (Reply, Option<Item>)
        ensures { MeetsRow (command_row self.old.clips self.old.state command.now) self.old result.0 result.1 self.new }
    {
        match *command {
            Command::Open(number, _) => (self.open(number), None),
            Command::Close(number) => (self.close(number), None),
            Command::Select(number) => (self.select(number), None),
            Command::PlayCue(id) => (self.cue(Item { id, part: None }), None),
            Command::CueData(id, start, duration) => {
                let part = Part { start, duration };
                let reply = self.cue(Item {
                    id,
                    part: Some(part),
                });
                (reply, None)
            }
            Command::Play => self.play(),
            Command::Stop => (self.stop(), None),
            Command::Status(bitmap) => (self.state(bitmap), None),
            Command::ActiveId => (self.active(), None),
            Command::IdRequest(id) => (self.presence(&id), None),
            Command::IdSize(id) => (self.size(&id), None),
        }
    }

    fn open(&mut self, number: u8) -> Reply
        ensures { (lock : ℕ) →
            MeetsRow (command_row self.old.clips self.old.state
            (command.Open number lock)) self.old result None self.new }
    {
        if number != self.number {
            return Reply::Opened(false);
        }
        self.access = match self.access {
            Access::Closed | Access::Open => Access::Open,
            Access::Selected => Access::Selected,
        };
        Reply::Opened(true)
    }

    fn close(&mut self, number: u8) -> Reply
        ensures { MeetsRow (command_row self.old.clips self.old.state
            (command.Close number)) self.old result None self.new }
    {
        if number != self.number {
            return REFUSED;
        }
        self.access = Access::Closed;
        (self.cued, self.playing) = (None, None);
        Reply::Ack
    }

    fn select(&mut self, number: u8) -> Reply
        ensures { MeetsRow (command_row self.old.clips self.old.state
            (command.Select number)) self.old result None self.new }
    {
        if number != self.number || self.access == Access::Closed {
            return REFUSED;
        }
        self.access = Access::Selected;
        Reply::Ack
    }

    fn is_selected(&self) -> bool
        ensures { result ≡ is_selected self.now.state }
    {
        match self.access {
            Access::Closed | Access::Open => false,
            Access::Selected => true,
        }
    }

    fn cue(&mut self, item: Item) -> Reply
        ensures { MeetsRow (cue_row self.old.clips self.old.state item) self.old result None self.new }
    {
        if !self.is_selected() {
            return REFUSED;
        }
        match frames_if_playable(&self.catalogue, &item) {
            None => REFUSED,
            Some(frames) => {
                self.cued = Some(Cue {
                    item,
                    left: self.cue_frames,
                    frames,
                });
                Reply::Ack
            }
        }
    }

    fn play(&mut self) -> (Reply, Option<Item>)
        ensures { MeetsRow
            (command_row self.old.clips self.old.state command.Play) self.old result.0 result.1 self.new }
    {
        if !self.is_selected() {
            return (REFUSED, None);
        }
        match self.cued {
            None => (Reply::Ack, None),
            Some(cue) => {
                if cue.left > 0 {
                    return (Reply::Ack, None);
                }
                self.cued = None;
                self.playing = Some(Clip {
                    item: cue.item,
                    left: cue.frames,
                });
                (Reply::Ack, Some(cue.item))
            }
        }
    }

    fn stop(&mut self) -> Reply
        ensures { MeetsRow (command_row self.old.clips self.old.state command.Stop) self.old result None self.new }
    {
        if !self.is_selected() {
            return REFUSED;
        }
        (self.cued, self.playing) = (None, None);
        Reply::Ack
    }

    fn state(&self, bitmap: u8) -> Reply
        ensures { (command_row self.now.clips self.now.state (command.Status bitmap)).answer ≡ Some result }
    {
        if !self.is_selected() {
            REFUSED
        } else if bitmap & 1 == 1 {
            Reply::State(1, Some(self.status_byte()))
        } else {
            Reply::State(0, None)
        }
    }

    fn active(&self) -> Reply
        ensures { (command_row self.now.clips self.now.state command.ActiveId).answer ≡ Some result }
    {
        if !self.is_selected() {
            return REFUSED;
        }
        Reply::Active(self.playing.map(|clip| clip.item.id))
    }

    fn presence(&self, id: &ClipId) -> Reply
        ensures { (command_row self.now.clips self.now.state (command.IdRequest id.now)).answer ≡ Some result }
    {
        Reply::Present(self.catalogue.length(id).is_some())
    }

    fn size(&self, id: &ClipId) -> Reply
        ensures { (command_row self.now.clips self.now.state (command.IdSize id.now)).answer ≡ Some result }
    {
        match self.catalogue.length(id) {
            None => REFUSED,
            Some(length) => Reply::Size(length.to_bcd()),
        }
    }
}
