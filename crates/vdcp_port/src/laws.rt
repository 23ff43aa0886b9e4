//! Laws of the port's table: each function is there for its contract, which is the law.

ghost use Rattle.std.specs.Prelude.{ℕ, ◌≡◌, ◌≢◌, ◌<◌, ◌≤◌, ◌*◌, ◌++◌, ◌==◌, ◌&&◌, ◌⊎◌, List, [], ◌∷◌, length, All, Contains, IsTrue, false, not, is_none, bit_and, Some, None};
ghost use Rattle.vdcp_value.specs.declared.part.Item.{Item};
ghost use Rattle.vdcp_value.specs.declared.clip_id.ClipId.{ClipId};
ghost use Rattle.vdcp_value.specs.declared.timecode.Timecode.{Timecode};
ghost use Rattle.std.specs.Option.{option_to_list};
ghost use Rattle.vdcp_frame.specs.Burst.{messages_of, end_of};
ghost use Rattle.vdcp_frame.specs.Message.{Content, AreOctets, Fits, Spells, spelling};
ghost use Rattle.vdcp_frame.specs.Reader.{ReadsAs};
ghost use Rattle.vdcp_frame.specs.Reading.{End, Reads};
ghost use Rattle.vdcp_frame.specs.declared.got.Ended.{Ended};
ghost use Rattle.vdcp_words.specs.Commands.{command_message, IsWritableCommand};
ghost use Rattle.vdcp_words.specs.Replies.{IsWritableReply};
ghost use Rattle.vdcp_words.specs.declared.command.Command.{Command};
ghost use Rattle.vdcp_words.specs.declared.command.Command.TheVariants as command;
ghost use Rattle.vdcp_words.specs.declared.reply.Reply.{Reply};
ghost use Rattle.vdcp_words.specs.declared.reply.Reply.TheVariants as reply;
ghost use Rattle.vdcp_port.specs.declared.asked.Asked.TheVariants as asked;
ghost use Rattle.vdcp_port.specs.Asked.{asked_of};
ghost use Rattle.vdcp_port.specs.Port.{PortState, cueing, done, empty, is_selected, state_byte, is_empty, is_cueing, is_done, made_ready};
ghost use Rattle.vdcp_port.specs.Row.{cues, command_row};
ghost use Rattle.vdcp_port.specs.Clock.{ClockedPort, new_port, row_at, answer_to, after_message, aired_by, after_ready, after_ended, after_frame, after_frames};
ghost use Rattle.vdcp_port.specs.Answers.{answers_to, aired_on_way, after_messages, end_answers, reply_at_end, reply_bytes, answer_bytes, bytes_for, bytes_for_all, bytes_at_end, items_for, sent_for, aired_for, after_burst, most_sent, most_aired};
ghost use Rattle.vdcp_port.specs.Kept.{HasSlotsOf, IsKept, cueing_from_now, counting_from_now};

#[tactic(auto, using(crate::proofs::TableLaws::copy_answer, crate::proofs::TableLaws::copy_port, crate::proofs::TableLaws::copy_air))]
pub fn a_copy_changes_nothing()
    ensures answer { (p : ClockedPort) (m : Content) → answer_to (after_message p m) m ≡ answer_to p m }
    ensures port { (p : ClockedPort) (m : Content) → after_message (after_message p m) m ≡ after_message p m }
    ensures air { (p : ClockedPort) (m : Content) → aired_by (after_message p m) m ≡ None }
{}

/// An item that is cued again while it is cueing only starts its count again.
pub fn a_cue_fills_the_cued_slot()
    ensures fills { (p : ClockedPort) (m : Content) (item : Item) → (row_at p m).change ≡ cues item →
        after_message p m ≡ cueing_from_now p item }
    ensures again { (p : ClockedPort) (m : Content) (item : Item) → (row_at p m).change ≡ cues item →
        p.state.cued ≡ cueing item → after_message p m ≡ counting_from_now p }
{}

pub fn a_refusal_changes_nothing()
    ensures refused { (p : ClockedPort) (m : Content) → answer_to p m ≡ Some (reply.Nak 0x01) → after_message p m ≡ p }
    ensures denied { (p : ClockedPort) (m : Content) → answer_to p m ≡ Some (reply.Opened false) →
        after_message p m ≡ p }
    ensures unanswered { (p : ClockedPort) (m : Content) → answer_to p m ≡ None → after_message p m ≡ p }
{}

pub fn only_play_airs()
    ensures play { (p : ClockedPort) (m : Content) (item : Item) → aired_by p m ≡ Some item →
        asked_of p.state.unit m ≡ asked.Command command.Play }
    ensures selected { (p : ClockedPort) (m : Content) (item : Item) → aired_by p m ≡ Some item →
        IsTrue (is_selected p.state) }
    ensures cued { (p : ClockedPort) (m : Content) (item : Item) → aired_by p m ≡ Some item → p.state.cued ≡ done item }
    ensures plays { (p : ClockedPort) (m : Content) (item : Item) → aired_by p m ≡ Some item →
        (after_message p m).state.playing ≡ Some item }
    ensures empties { (p : ClockedPort) (m : Content) (item : Item) → aired_by p m ≡ Some item →
        (after_message p m).state.cued ≡ empty }
{}

pub fn play_airs_what_is_cued()
    ensures { (p : ClockedPort) (m : Content) (item : Item) →
        asked_of p.state.unit m ≡ asked.Command command.Play → IsTrue (is_selected p.state) → p.state.cued ≡ done item →
        aired_by p m ≡ Some item }
{}

#[tactic(auto, using(crate::proofs::Bursts::at_most_the_cued))]
pub fn a_burst_airs_at_most_the_cued_item()
    ensures { (p : ClockedPort) (ms : List Content) →
        (aired_on_way p ms ≡ []) ⊎ ((item : Item) × (p.state.cued ≡ done item) × (aired_on_way p ms ≡ item ∷ [])) }
{}

#[tactic(auto, using(crate::proofs::StateByte::one_of_six))]
pub fn the_state_byte()
    ensures one_of { (p : PortState) → Contains (0x01 ∷ 0x02 ∷ 0x04 ∷ 0x06 ∷ 0x80 ∷ 0x84 ∷ []) (state_byte p) }
    ensures idle { (p : PortState) → not (bit_and (state_byte p) 1 == 0) ≡ (is_empty p.cued && is_none p.playing) }
    ensures cueing { (p : PortState) → not (bit_and (state_byte p) 2 == 0) ≡ is_cueing p.cued }
    ensures playing { (p : PortState) → (bit_and (state_byte p) 4 == 0) ≡ is_none p.playing }
    ensures done { (p : PortState) → not (bit_and (state_byte p) 128 == 0) ≡ is_done p.cued }
{}

/// A port that answers idle, 01h, holds nothing, as a late line (`vdcp_world`) needs in confirm mode.
pub fn an_idle_port_is_empty()
    ensures empty { (p : ClockedPort) (m : Content) (groups : ℕ) →
        answer_to p m ≡ Some (reply.State groups (Some 0x01)) →
        (p.state.cued ≡ empty) × (p.state.playing ≡ None) }
    ensures nothing_cued { (p : ClockedPort) (m : Content) (groups : ℕ) →
        answer_to p m ≡ Some (reply.State groups (Some 0x01)) → bit_and (state_byte p.state) 0x82 ≡ 0 }
    ensures after_open { (p : ClockedPort) (m : Content) (number lock : ℕ) →
        asked_of p.state.unit m ≡ asked.Command (command.Open number lock) →
        HasSlotsOf p.state (after_message p m).state }
    ensures after_select { (p : ClockedPort) (m : Content) (number : ℕ) →
        asked_of p.state.unit m ≡ asked.Command (command.Select number) →
        HasSlotsOf p.state (after_message p m).state }
    ensures after_status { (p : ClockedPort) (m : Content) (bitmap : ℕ) →
        asked_of p.state.unit m ≡ asked.Command (command.Status bitmap) →
        HasSlotsOf p.state (after_message p m).state }
{}

pub fn answers_are_read_back()
    ensures { (p : ClockedPort) (ms : List Content) (end : End) →
        All IsWritableReply (answers_to p ms ++ end_answers end) }
{
    vdcp_value::laws::a_time_code_has_lawful_bytes();
}

pub fn a_command_is_answered()
    ensures { (clips : List (ClipId × Timecode)) (p : PortState) (c : Command) →
        (reply : Reply) × ((command_row clips p c).answer ≡ Some reply) × IsWritableReply reply }
{
    vdcp_value::laws::a_time_code_has_lawful_bytes();
}

/// What a port holds is in its catalogue and fits, and its counts run if something is waited for.
#[tactic(auto, using(crate::proofs::Keeping::message_kept))]
pub fn what_a_port_holds()
    ensures new { (clips : List (ClipId × Timecode)) (unit number cue_frames : ℕ) → 1 ≤ cue_frames →
        IsKept (new_port clips unit number cue_frames) }
    ensures message { (p : ClockedPort) (m : Content) → IsKept p → IsKept (after_message p m) }
    ensures ready { (p : ClockedPort) → IsKept p → IsKept (after_ready p) }
    ensures ended { (p : ClockedPort) → IsKept p → IsKept (after_ended p) }
    ensures frame { (p : ClockedPort) → IsKept p → IsKept (after_frame p) }
{}

pub fn a_command_asks_its_own_unit()
    ensures own { (unit : ℕ) (c : Command) → IsWritableCommand c →
        asked_of unit (command_message unit c) ≡ asked.Command c }
    ensures other { (unit other : ℕ) (c : Command) → other ≢ unit →
        asked_of unit (command_message other c) ≡ asked.Nothing }
{
    vdcp_words::laws::written_command_is_read();
}

pub fn a_command_has_its_own_row()
    ensures { (p : ClockedPort) (c : Command) → IsWritableCommand c →
        row_at p (command_message p.state.unit c) ≡ command_row p.clips p.state c }
{
    a_command_asks_its_own_unit();
}

#[tactic(auto, using(crate::proofs::Answering::answers_to_both, crate::proofs::Answering::bytes_for_both, crate::proofs::Answering::aired_by_both, crate::proofs::Answering::after_both))]
pub fn messages_after_messages()
    ensures answers { (p : ClockedPort) (ms ns : List Content) →
        answers_to p (ms ++ ns) ≡ answers_to p ms ++ answers_to (after_messages p ms) ns }
    ensures sent { (p : ClockedPort) (ms ns : List Content) →
        bytes_for_all p (ms ++ ns) ≡ bytes_for_all p ms ++ bytes_for_all (after_messages p ms) ns }
    ensures aired { (p : ClockedPort) (ms ns : List Content) →
        aired_on_way p (ms ++ ns) ≡ aired_on_way p ms ++ aired_on_way (after_messages p ms) ns }
    ensures next { (p : ClockedPort) (ms ns : List Content) →
        after_messages p (ms ++ ns) ≡ after_messages (after_messages p ms) ns }
{}

#[tactic(auto, using(crate::proofs::Units::unit_of_next, crate::proofs::Units::unit_of_after, crate::proofs::Units::unit_of_frame))]
pub fn the_unit_stays()
    ensures message { (p : ClockedPort) (m : Content) → (after_message p m).state.unit ≡ p.state.unit }
    ensures messages { (p : ClockedPort) (ms : List Content) → (after_messages p ms).state.unit ≡ p.state.unit }
    ensures burst { (p : ClockedPort) (burst : List ℕ) → (after_burst p burst).state.unit ≡ p.state.unit }
    ensures frame { (p : ClockedPort) → (after_frame p).state.unit ≡ p.state.unit }
    ensures ready { (p : ClockedPort) → (after_ready p).state.unit ≡ p.state.unit }
    ensures ended { (p : ClockedPort) → (after_ended p).state.unit ≡ p.state.unit }
{}

#[tactic(auto, using(crate::proofs::Answering::bytes_for_alone, crate::proofs::Answering::aired_by_alone, crate::proofs::Answering::bytes_of_one))]
pub fn one_alone()
    ensures sent { (p : ClockedPort) (m : Content) → bytes_for_all p (m ∷ []) ≡ bytes_for p m }
    ensures aired { (p : ClockedPort) (m : Content) → aired_on_way p (m ∷ []) ≡ items_for p m }
    ensures reply { (unit : ℕ) (reply : Reply) → answer_bytes unit (reply ∷ []) ≡ reply_bytes unit reply }
{}

pub fn a_burst_is_answered_as_it_is_read()
    ensures sent { (p : ClockedPort) (burst : List ℕ) (ms : List Content) (end : End) → AreOctets burst →
        Reads burst ms end → sent_for p burst ≡ bytes_for_all p ms ++ answer_bytes p.state.unit (end_answers end) }
    ensures aired { (p : ClockedPort) (burst : List ℕ) (ms : List Content) (end : End) → AreOctets burst →
        Reads burst ms end → aired_for p burst ≡ aired_on_way p ms }
    ensures next { (p : ClockedPort) (burst : List ℕ) (ms : List Content) (end : End) → AreOctets burst →
        Reads burst ms end → after_burst p burst ≡ after_messages p ms }
{
    vdcp_frame::laws::one_reading();
}

/// The streaming reader's messages and its end are answered as those of the whole burst.
pub fn a_burst_is_answered_as_it_ended()
    ensures sent { (p : ClockedPort) (burst : List ℕ) (ms : List Content) (ended : Ended) → AreOctets burst →
        ReadsAs burst ms ended → sent_for p burst ≡ bytes_for_all p ms ++ bytes_at_end p.state.unit ended }
    ensures aired { (p : ClockedPort) (burst : List ℕ) (ms : List Content) (ended : Ended) → AreOctets burst →
        ReadsAs burst ms ended → aired_for p burst ≡ aired_on_way p ms }
    ensures next { (p : ClockedPort) (burst : List ℕ) (ms : List Content) (ended : Ended) → AreOctets burst →
        ReadsAs burst ms ended → after_burst p burst ≡ after_messages p ms }
{
    vdcp_frame::laws::one_reading();
}

pub fn one_answer_to_the_end()
    ensures { (burst : List ℕ) (ms ns : List Content) (end : End) (ended : Ended) → Reads burst ms end →
        ReadsAs burst ns ended → end_answers end ≡ option_to_list (reply_at_end ended) }
{
    vdcp_frame::laws::one_reading();
}

pub fn an_answer_is_short()
    ensures { (p : ClockedPort) (m : Content) (bytes : List ℕ) → Spells m bytes →
        length (bytes_for p m) ≤ 3 * length bytes }
{
    vdcp_value::laws::bytes_are_counted();
    vdcp_value::laws::an_id_is_its_bytes();
    vdcp_value::laws::a_time_code_has_lawful_bytes();
}

pub fn what_a_burst_needs()
    ensures sent { (p : ClockedPort) (burst : List ℕ) → AreOctets burst → length (sent_for p burst) ≤ most_sent burst }
    ensures aired { (p : ClockedPort) (burst : List ℕ) → AreOctets burst →
        length (aired_for p burst) ≤ most_aired burst }
{
    an_answer_is_short();
    vdcp_frame::laws::one_reading();
}

/// Such a burst, of whatever bytes, is answered by one NAK at most.
pub fn a_burst_without_a_message()
    ensures sent { (p : ClockedPort) (burst : List ℕ) → messages_of burst ≡ [] →
        (sent_for p burst ≡ []) ⊎ (sent_for p burst ≡ 0x05 ∷ 0x04 ∷ []) ⊎ (sent_for p burst ≡ 0x05 ∷ 0x80 ∷ []) }
    ensures aired { (p : ClockedPort) (burst : List ℕ) → messages_of burst ≡ [] → aired_for p burst ≡ [] }
    ensures next { (p : ClockedPort) (burst : List ℕ) → messages_of burst ≡ [] → after_burst p burst ≡ p }
{}

#[tactic(auto, using(crate::proofs::FewMessages::sent_with_one, crate::proofs::FewMessages::aired_with_one, crate::proofs::FewMessages::after_with_one))]
pub fn a_burst_with_one_message()
    ensures sent { (p : ClockedPort) (m : Content) (burst : List ℕ) → messages_of burst ≡ m ∷ [] →
        sent_for p burst ≡ bytes_for p m ++ answer_bytes p.state.unit (end_answers (end_of burst)) }
    ensures aired { (p : ClockedPort) (m : Content) (burst : List ℕ) → messages_of burst ≡ m ∷ [] →
        aired_for p burst ≡ items_for p m }
    ensures next { (p : ClockedPort) (m : Content) (burst : List ℕ) → messages_of burst ≡ m ∷ [] →
        after_burst p burst ≡ after_message p m }
{}

pub fn a_burst_of_one_message()
    ensures sent { (p : ClockedPort) (m : Content) → Fits m →
        sent_for p (spelling m) ≡ bytes_for p m }
    ensures aired { (p : ClockedPort) (m : Content) → Fits m → aired_for p (spelling m) ≡ items_for p m }
    ensures next { (p : ClockedPort) (m : Content) → Fits m → after_burst p (spelling m) ≡ after_message p m }
{
    vdcp_frame::laws::a_spelling_is_its_message();
}

/// A cue is done, and a clip ends, with the last frame of its count, and not before.
#[tactic(auto, using(crate::proofs::Frames::cues_on, crate::proofs::Frames::cues_out, crate::proofs::Frames::plays_on, crate::proofs::Frames::plays_out))]
pub fn counts_are_frames()
    ensures cueing { (p : ClockedPort) (n : ℕ) → n < p.counts.cue → (after_frames n p).state.cued ≡ p.state.cued }
    ensures done { (p : ClockedPort) → 0 < p.counts.cue →
        (after_frames p.counts.cue p).state.cued ≡ made_ready p.state.cued }
    ensures playing { (p : ClockedPort) (n : ℕ) → n < p.counts.playing →
        (after_frames n p).state.playing ≡ p.state.playing }
    ensures ended { (p : ClockedPort) → 0 < p.counts.playing → (after_frames p.counts.playing p).state.playing ≡ None }
{}
