//! How a port answers a whole burst, its end included.
ghost use Rattle.arrayvec.specs.ArrayVec.{array_vec_len};
ghost use Rattle.std.specs.Option.{option_to_list};
ghost use Rattle.std.specs.Prelude.{◌≡◌, ◌+◌, ◌≤◌, ◌++◌, IfSome, IsOk, OnErr, OnOk, length};
ghost use Rattle.std.specs.Vec.{vec_capacity, vec_len};
ghost use Rattle.vdcp_frame.specs.Burst.{end_of, messages_of};
ghost use Rattle.vdcp_frame.specs.Message.{content_of};
ghost use Rattle.vdcp_frame.specs.Reader.{IsEnd};
ghost use Rattle.vdcp_frame.specs.Reading.{Reads};
ghost use Rattle.vdcp_port.specs.Answers.{bytes_at_end, most_aired, most_sent, reply_at_end, reply_bytes};
ghost use Rattle.vdcp_words.specs.Replies.{IsWritableReply};

use crate::catalogue::Catalogue;
use crate::laws;
use crate::port::Port;
use crate::sink::Sink;
use arrayvec::ArrayVec;
use std::alloc::{AllocError, Allocator};
use vdcp_frame::{Ended, LIMIT, Message, Messages};
use vdcp_value::Item;
use vdcp_words::Reply;

/// Answers a burst's end: nothing after a whole message, NAK 80h inside one, NAK 04h after a fault (this profile).
pub fn reply_at_end(ended: Ended) -> Option<Reply>
    ensures exact { result ≡ reply_at_end ended }
    ensures readable { IfSome result IsWritableReply }
{
    match ended {
        Ended::Clean => None,
        Ended::Cut(_) => Some(Reply::Nak(0x80)),
        Ended::AfterFault => Some(Reply::Nak(0x04)),
    }
}

impl<C: Catalogue> Port<C> {
    ghost use Rattle.vdcp_port.specs.Clock.{after_message, aired_by};
    ghost use Rattle.vdcp_port.specs.Answers.{bytes_for, bytes_for_all, sent_for, aired_for, after_burst};

    /// Answers a whole burst: appends the bytes of all answers to `out`, with a NAK for a fault or a cut message at the
    /// end, and the item that goes to air, if one does, to `aired`. Room is made first: three bytes for each byte that
    /// is read and two more, and one item if the burst is long enough for a PLAY. `AllocError`: nothing has changed.
    pub fn burst_answer<A: Allocator, B: Allocator>(
        &mut self,
        burst: &[u8],
        out: &mut Vec<u8, A>,
        aired: &mut Vec<Item, B>,
    ) -> Result<(), AllocError>
        ensures read { OnOk result (Reads burst.now (messages_of burst.now) (end_of burst.now)) }
        ensures sent { OnOk result (out.new.items ≡ out.old.items ++ sent_for self.old burst.now) }
        ensures aired { OnOk result (aired.new.items ≡ aired.old.items ++ aired_for self.old burst.now) }
        ensures next { OnOk result (self.new ≡ after_burst self.old burst.now) }

        ensures refused { OnErr result
            ((self.new ≡ self.old) × (out.new.items ≡ out.old.items) × (aired.new.items ≡ aired.old.items)) }
        ensures succeeds { vec_len out.old + most_sent burst.now ≤ vec_capacity out.old →
            vec_len aired.old + most_aired burst.now ≤ vec_capacity aired.old → IsOk result }
    {
        make_room(burst, out, aired)?;
        let item = self.answer_all(burst, out);
        tell(item, aired);
        Ok(())
    }

    /// As `burst_answer`, but into room that is there: three bytes for each byte that is read, 4,096 at most, and two
    /// more. It gives the item that goes to air, if one does: a burst airs one at most.
    pub fn answer_into<const N: usize>(
        &mut self,
        burst: &[u8],
        out: &mut ArrayVec<u8, N>,
    ) -> Option<Item>
        requires { array_vec_len out.old + most_sent burst.now ≤ N }
        ensures read { Reads burst.now (messages_of burst.now) (end_of burst.now) }
        ensures sent { out.new.items ≡ out.old.items ++ sent_for self.old burst.now }
        ensures aired { option_to_list result ≡ aired_for self.old burst.now }
        ensures next { self.new ≡ after_burst self.old burst.now }
    {
        self.answer_all(burst, out)
    }

    fn answer_all<S: Sink>(&mut self, burst: &[u8], out: &mut S) -> Option<Item>
        requires { most_sent burst.now ≤ S.room out.old }
        ensures read { Reads burst.now (messages_of burst.now) (end_of burst.now) }
        ensures sent { S.written out.new ≡ S.written out.old ++ sent_for self.old burst.now }
        ensures aired { option_to_list result ≡ aired_for self.old burst.now }
        ensures most { length (option_to_list result) ≤ most_aired burst.now }
        ensures next { self.new ≡ after_burst self.old burst.now }
    {
        vdcp_frame::laws::one_reading();
        laws::what_a_burst_needs();
        let unit = self.unit();
        let (aired, ended) = self.answer_messages(burst, out);
        append_end(ended, unit, out);
        aired
    }

    fn answer_messages<S: Sink>(&mut self, burst: &[u8], out: &mut S) -> (Option<Item>, Ended)
        requires { length (bytes_for_all self.old (messages_of burst.now)) ≤ S.room out.old }
        ensures sent { S.written out.new ≡ S.written out.old ++ bytes_for_all self.old (messages_of burst.now) }
        ensures aired { option_to_list result.0 ≡ aired_for self.old burst.now }
        ensures next { self.new ≡ after_burst self.old burst.now }
        ensures ended { IsEnd result.1 (end_of burst.now) }
        ensures room { S.room out.old ≤
            S.room out.new + length (bytes_for_all self.old (messages_of burst.now)) }
    {
        let mut aired = None;
        let mut messages = Messages::of(burst);
        'messages: while let Some(message) = messages.next() {
            aired = aired.or(self.answer_message(&message, out));
        }
        (aired, messages.end().ended())
    }

    fn answer_message<S: Sink>(&mut self, message: &Message, out: &mut S) -> Option<Item>
        requires { length (bytes_for self.old (content_of message.now)) ≤ S.room out.old }
        ensures sent { S.written out.new ≡ S.written out.old ++ bytes_for self.old (content_of message.now) }
        ensures aired { result ≡ aired_by self.old (content_of message.now) }
        ensures next { self.new ≡ after_message self.old (content_of message.now) }
        ensures room { S.room out.old ≤ S.room out.new + length (bytes_for self.old (content_of message.now)) }
    {
        let unit = self.unit();
        let (reply, item) = self.answer(message);
        if let Some(reply) = reply {
            append_reply(&reply, unit, out);
        }
        item
    }
}

fn make_room<A: Allocator, B: Allocator>(
    burst: &[u8],
    out: &mut Vec<u8, A>,
    aired: &mut Vec<Item, B>,
) -> Result<(), AllocError>
    ensures sent { out.new.items ≡ out.old.items }
    ensures aired { aired.new.items ≡ aired.old.items }
    ensures made { OnOk result ((vec_len out.new + most_sent burst.now ≤ vec_capacity out.new)
        × (vec_len aired.new + most_aired burst.now ≤ vec_capacity aired.new)) }
    ensures succeeds { vec_len out.old + most_sent burst.now ≤ vec_capacity out.old →
        vec_len aired.old + most_aired burst.now ≤ vec_capacity aired.old → IsOk result }
{
    out.reserve(3 * burst.len().min(LIMIT) + 2)?;
    aired.reserve((burst.len() / 5).min(1))
}

fn tell<B: Allocator>(item: Option<Item>, aired: &mut Vec<Item, B>)
    requires { vec_len aired.old + length (option_to_list item) ≤ vec_capacity aired.old }
    ensures { aired.new.items ≡ aired.old.items ++ option_to_list item }
{
    if let Some(item) = item {
        aired.push_reserved(item);
    }
}

#[tactic(auto, using(crate::proofs::Answering::bytes_of_one))]
fn append_end<S: Sink>(ended: Ended, unit: u8, out: &mut S)
    requires unit { unit ≤ 15 }
    requires room { length (bytes_at_end unit ended) ≤ S.room out.old }
    ensures { S.written out.new ≡ S.written out.old ++ bytes_at_end unit ended }
{
    if let Some(reply) = reply_at_end(ended) {
        append_reply(&reply, unit, out);
    }
}

fn append_reply<S: Sink>(reply: &Reply, unit: u8, out: &mut S)
    requires unit { unit ≤ 15 }
    requires room { length (reply_bytes unit reply.now) ≤ S.room out.old }
    ensures written { S.written out.new ≡ S.written out.old ++ reply_bytes unit reply.now }
    ensures room { S.room out.old ≤ S.room out.new + length (reply_bytes unit reply.now) }
{
    out.append(reply.encode(unit).as_slice());
}
