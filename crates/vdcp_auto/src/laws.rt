//! Laws of the definitions that the contracts cite: each function is there for its contract, which is the law.
ghost use Rattle.std.specs.Prelude.{◌≡◌, ◌+◌, ◌≤◌, ◌<◌, ◌&&◌, ◌||◌, not, if◌then◌else◌, true, None, IfSome, List, Option, [], ◌∷◌, ◌++◌, All};
ghost use Rattle.vdcp_value.specs.Parts.{IsItem};
ghost use Rattle.vdcp_words.specs.Commands.{IsWritableCommand};
ghost use Rattle.vdcp_auto.specs.declared.exchange.Heard.{Heard};
ghost use Rattle.vdcp_auto.specs.declared.exchange.Input.{Input};
ghost use Rattle.vdcp_auto.specs.declared.phase.Mode.{Mode};
ghost use Rattle.vdcp_auto.specs.declared.phase.Mode.TheVariants.{Confirming};
ghost use Rattle.vdcp_auto.specs.declared.exchange.Exchange.{Exchange};
ghost use Rattle.vdcp_auto.specs.State.{State};
ghost use Rattle.vdcp_auto.specs.Plan.{Plan};
ghost use Rattle.vdcp_auto.specs.Heard.{hears_receipt};
ghost use Rattle.vdcp_auto.specs.Turn.{awaited, given, ended_by, came_to};
ghost use Rattle.vdcp_auto.specs.Course.{course, course_from, after_input, ended_by_input, after_inputs, after_inputs_from, logged, Reached};
ghost use Rattle.vdcp_auto.specs.Law.{IsLawful};
ghost use Rattle.vdcp_auto.specs.Log.{is_play, is_answered};
ghost use Rattle.vdcp_auto.specs.Settled.{tells_of_play, has_open_play, settles, settled, may_have_aired};

/// Whatever calls a new controller had, in whatever order and mode, also while an answer was awaited, this holds of it
/// and of the log of the exchanges that these calls ended:
///
/// - the rule book allows each command of the log where it stands, and the one that is awaited now;
/// - the next tick gives a command exactly if nothing is awaited and the controller hasn't ended;
/// - if it is ready in Halt or HaltClose, a STOP was sent before;
/// - its count of settled events is what the log shows to be settled;
/// - it ends Lost exactly when `limit` exchanges in a row (in confirm mode, requests) have no answer;
/// - Refused(k) in confirm mode: k was cued, and then, with nothing settled, at least `limit` statuses had nothing cued;
/// - Done means that every event is settled, and Missing(k) that the events before k are.
pub fn reached_is_lawful()
    ensures { (plan : Plan) (state : State) (log : List Exchange) → Reached plan state log → IsLawful plan state log }
{}

#[tactic(auto, using(crate::proofs::Sending::awaited_writable, crate::proofs::Sending::given_writable))]
pub fn commands_can_be_written()
    ensures awaited { (plan : Plan) (state : State) → All IsItem plan.list → plan.port < 256 →
        IfSome (awaited plan state) IsWritableCommand }
    ensures given { (plan : Plan) (state : State) → All IsItem plan.list → plan.port < 256 →
        IfSome (given plan state) IsWritableCommand }
{}

/// Inputs that follow others run the controller which those leave; one more adds the exchange that it ends, if any.
pub fn courses_follow_one_another()
    ensures course { (plan : Plan) (state : State) (xs ys : List Input) →
        course_from plan state (xs ++ ys)
        ≡ course_from plan state xs ++ course_from plan (after_inputs_from plan state xs) ys }
    ensures left { (plan : Plan) (state : State) (xs ys : List Input) →
        after_inputs_from plan state (xs ++ ys) ≡ after_inputs_from plan (after_inputs_from plan state xs) ys }
    ensures one_more { (plan : Plan) (state : State) (xs : List Input) (x : Input) →
        course_from plan state (xs ++ x ∷ [])
        ≡ logged (course_from plan state xs) (ended_by_input plan (after_inputs_from plan state xs) x) }
    ensures left_by_one_more { (plan : Plan) (state : State) (xs : List Input) (x : Input) →
        after_inputs_from plan state (xs ++ x ∷ []) ≡ after_input plan (after_inputs_from plan state xs) x }
{}

pub fn a_course_is_reached()
    ensures { (plan : Plan) (inputs : List Input) → 1 ≤ plan.limit → plan.limit ≤ 1000 →
        Reached plan (after_inputs plan inputs) (course plan inputs) }
{}

#[tactic(auto, using(crate::proofs::Receipts::receipt_ends_nothing, crate::proofs::Receipts::receipt_changes_nothing))]
pub fn a_receipt_confirms_nothing()
    ensures ends { (plan : Plan) (state : State) (came : Option Heard) →
        plan.mode ≡ Confirming → hears_receipt came ≡ true → ended_by plan came state ≡ None }
    ensures changes { (plan : Plan) (state : State) (came : Option Heard) →
        plan.mode ≡ Confirming → hears_receipt came ≡ true → came_to plan came state ≡ state }
{}

#[tactic(auto, using(crate::proofs::LookBacks::airing_grows, crate::proofs::LookBacks::open_grows, crate::proofs::LookBacks::settled_grows))]
pub fn a_log_grows()
    ensures open { (log : List Exchange) (e : Exchange) → has_open_play (log ++ e ∷ [])
        ≡ (if tells_of_play e then is_play e && not (is_answered e) else has_open_play log) }
    ensures settled { (mode : Mode) (log : List Exchange) (e : Exchange) → settled mode (log ++ e ∷ [])
        ≡ (if settles mode log e then settled mode log + 1 else settled mode log) }
    ensures airing { (mode : Mode) (log : List Exchange) (e : Exchange) → may_have_aired mode (log ++ e ∷ [])
        ≡ (not (settles mode log e) && (is_play e || may_have_aired mode log)) }
{}
