//! Laws of the definitions that the contracts cite: each function is there for its contract, which is the law.
ghost use Rattle.std.specs.Option.{option_to_list};
ghost use Rattle.std.specs.Prelude.{◌≡◌, ◌+◌, ℕ, Bool, List, [], ◌++◌, Result, Ok, None, map};
ghost use Rattle.vdcp_auto.specs.Plan.{Plan};
ghost use Rattle.vdcp_auto.specs.Turn.{awaited};
ghost use Rattle.vdcp_drive.specs.Auto.{Auto, Event, after, arrivals, log_of};
ghost use Rattle.vdcp_frame.specs.Message.{Content};
ghost use Rattle.vdcp_frame.specs.Reading.{SpellsAll, IsUnfinished};
ghost use Rattle.vdcp_drive.specs.Keeping.{KeepsRun};
ghost use Rattle.vdcp_drive.specs.Leaves.{HasRun, IsRun, steps_in};
ghost use Rattle.vdcp_drive.specs.Reading.{Held, holds, completed, held_after};
ghost use Rattle.vdcp_drive.specs.Safe.{AreSafe, IsCut};
ghost use Rattle.vdcp_drive.specs.Below.{Below};
ghost use Rattle.vdcp_drive.specs.Steps.{Step, World, steps_of};
ghost use Rattle.vdcp_drive.specs.Traces.{acts_in, kept_in, sent_in, came_in, commands_kept, bytes_of, exchanged, kept_of, awaited_notes};
ghost use Rattle.vdcp_port.specs.Clock.{ClockedPort};
ghost use Rattle.vdcp_frame.specs.Progress.{Progress};
ghost use Rattle.vdcp_wire.specs.Acts.{Act};
ghost use Rattle.vdcp_drive.specs.ServeLeaves.{ServeEnding};
ghost use Rattle.vdcp_drive.specs.Served.{HasMore, IsMoment, only};
ghost use Rattle.vdcp_drive.specs.Serving.{HookStep, Service, acts_of, hook_steps, left_by};
ghost use Rattle.vdcp_drive.specs.Turns.{Turn};
ghost use Rattle.vdcp_drive.specs.declared.line.DriveFault.{DriveFault};
ghost use Rattle.vdcp_drive.specs.declared.hooks.BrokenOff.{BrokenOff};
ghost use Rattle.vdcp_drive.specs.declared.hearing.Hearing.{Hearing};
ghost use Rattle.vdcp_drive.specs.declared.line.Ran.{Ran};
ghost use Rattle.vdcp_drive.specs.declared.line.TurnsEnd.{TurnsEnd};

use crate::ear::Ear;
use crate::hooks::Hooks;
use vdcp_auto::Source;
use vdcp_frame::laws as bursts;
use vdcp_port::laws as answers;
use vdcp_wire::Wire;

pub(crate) fn laws_below()
    ensures { Below }
{
    bursts::no_spelling_begins_another();
    bursts::one_spelling();
    bursts::what_is_spelt_is_bytes();
    bursts::a_spelling_is_its_message();
    bursts::what_is_followed_is_read();
    bursts::what_is_fed_is_followed();
    bursts::one_reading();
    bursts::written_is_read();
    answers::messages_after_messages();
    answers::the_unit_stays();
    answers::a_burst_airs_at_most_the_cued_item();
}

/// At each moment, also in a send, what went out is commands whose row was safe before, and a beginning of one.
pub fn what_goes_out_is_kept<E: Ear>()
    ensures { (plan : Plan) (unit count : ℕ) (a a' : Auto E) (answer : Result Ran BrokenOff) →
        (run : IsRun E.fold plan unit count a a' answer) → (some : List Step) → IsCut some (steps_in run) →
        AreSafe unit None some }
{}

/// What a run keeps, whatever its answer was, if being asked changes nothing in what keeps it.
pub fn what_a_run_keeps<S: Source, E: Ear, W: Wire, H: Hooks<S>>()
    ensures { (plan : Plan) (unit count : ℕ) (a a' : Auto E) (old new : World W H.Journal) (answer : Result Ran BrokenOff) →
        (h : HasRun (record { does = W.does; asks = λ _ _ before after. after ≡ before; adds = H.adds; loses = H.loses })
        E.fold plan unit count a a' old new answer) →
        KeepsRun H.adds H.loses W.told E.fold plan unit a a' old.wire new.wire answer old.keep new.keep
        h.run.events (kept_in (steps_in h.run)) }
{}

/// The row that was awaited before a run, and then the run's rows, are those of the exchanges that ended in it and of
/// the command that is awaited after it. The bytes that went out are those of the run's commands.
pub fn steps_are_exchanges<E: Ear>()
    ensures rows { (plan : Plan) (unit : ℕ) (a : Auto E) (events : List Event) →
        awaited_notes plan a.state ++ exchanged (kept_in (steps_of E.fold plan unit a events))
        ≡ kept_of (log_of E.fold plan unit a events) ++ awaited_notes plan (after E.fold plan unit a events).state }
    ensures commands { (plan : Plan) (unit : ℕ) (a : Auto E) (events : List Event) →
        option_to_list (awaited plan a.state) ++ commands_kept (kept_in (steps_of E.fold plan unit a events))
        ≡ map (λ e. e.command) (log_of E.fold plan unit a events)
        ++ option_to_list (awaited plan (after E.fold plan unit a events).state) }
    ensures bytes { (plan : Plan) (unit : ℕ) (a : Auto E) (events : List Event) →
        sent_in (acts_in (steps_of E.fold plan unit a events))
        ≡ bytes_of unit (commands_kept (kept_in (steps_of E.fold plan unit a events))) }
    ensures came { (plan : Plan) (unit : ℕ) (a : Auto E) (events : List Event) →
        came_in (acts_in (steps_of E.fold plan unit a events)) ≡ arrivals events }
{}

pub fn a_run_goes_on<E: Ear>()
    ensures { (plan : Plan) (unit m n : ℕ) (a b a' : Auto E) (answer : Result Ran BrokenOff) →
        (first : IsRun E.fold plan unit m a b (Ok Ran.Spent)) →
        (next : IsRun E.fold plan unit n b a' answer) → (run : IsRun E.fold plan unit (m + n) a a' answer)
        × (steps_in run ≡ steps_in first ++ steps_in next) }
{}

/// Into whatever pieces the bytes are cut, an end that hears at once completes the messages that they spell.
pub fn what_is_spelt_is_completed()
    ensures messages { (ms : List Content) (bytes rest : List ℕ) → SpellsAll ms bytes → IsUnfinished rest →
        completed (holds []) (bytes ++ rest) ≡ ms }
    ensures held { (ms : List Content) (bytes rest : List ℕ) → SpellsAll ms bytes → IsUnfinished rest →
        held_after (holds []) (bytes ++ rest) ≡ holds rest }
    ensures pieces { (at : Held) (piece more : List ℕ) →
        completed at (piece ++ more) ≡ completed at piece ++ completed (held_after at piece) more }
    ensures pieces_held { (at : Held) (piece more : List ℕ) →
        held_after at (piece ++ more) ≡ held_after (held_after at piece) more }
{
    laws_below();
}

pub fn servers_go_on()
    ensures left { (s : Service) (xs ys : List Turn) → left_by s (xs ++ ys) ≡ left_by (left_by s xs) ys }
    ensures acts { (s : Service) (xs ys : List Turn) →
        acts_of s (xs ++ ys) ≡ acts_of s xs ++ acts_of (left_by s xs) ys }
    ensures hooks { (s : Service) (xs ys : List Turn) →
        hook_steps s (xs ++ ys) ≡ hook_steps s xs ++ hook_steps (left_by s xs) ys }
{}

/// What one turn more adds to what a server has sent, aired and is left with.
pub fn one_event_more()
    ensures { (s : Service) (turns : List Turn) (what : Turn) → HasMore s turns what }
{
    laws_below();
}

/// At each moment, also in an answer cut short, what went out is a beginning of the answer to what had happened.
pub fn what_goes_out_is_answered()
    ensures { (s : Service) (turns : List Turn) (can : Bool) (count : ℕ) (hearing : Hearing) (answer : Result TurnsEnd DriveFault)
        (done : List Act) (last : List HookStep) (port : ClockedPort) (reader : Progress) →
        ServeEnding can count turns hearing (left_by s turns) answer done last port reader → (some behind : List Act) →
        acts_of s turns ++ done ≡ some ++ behind → IsMoment s (turns ++ only (came_in done)) some }
{
    laws_below();
}
