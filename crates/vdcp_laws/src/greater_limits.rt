//! The law of runs that were lost, and go on under a greater limit.
ghost use Rattle.std.specs.Prelude.{ℕ, ◌≡◌, ◌≤◌, ◌<◌, ◌∷◌, ◌++◌, [], List, None, Some};
ghost use Rattle.vdcp_value.specs.declared.part.Item.{Item};
ghost use Rattle.vdcp_words.specs.declared.command.Command.{Command};
ghost use Rattle.vdcp_port.specs.Clock.{ClockedPort};
ghost use Rattle.vdcp_auto.specs.Plan.{Plan};
ghost use Rattle.vdcp_auto.specs.Turn.{outcome_of, start};
ghost use Rattle.vdcp_auto.specs.declared.outcome.Outcome.TheVariants.{Lost};
ghost use Rattle.vdcp_journal.specs.Mending.{rows_at};
ghost use Rattle.vdcp_journal.specs.Resume.{AreTold, IsLostAfter, after_rows, plan_after};
ghost use Rattle.vdcp_journal.specs.declared.moment.Moment.{Moment};
ghost use Rattle.vdcp_journal.specs.declared.row.Note.TheVariants as note;
ghost use Rattle.vdcp_journal.specs.declared.row.Row.{Row};
ghost use Rattle.vdcp_laws.specs.Mended.{AreOfJoined};
ghost use Rattle.vdcp_laws.specs.Raised.{AreAlsoJoined};
ghost use Rattle.vdcp_laws.specs.TwoEnds.{AreJoined, Ends};

/// What comes of both ends could come of them under a greater limit, too, with the same notes and the same port: only where
/// the automation ended it may go on. So what is safe of a lost run is safe of one that goes on, once it says that it was lost.
pub fn a_greater_limit_joins_the_same()
    ensures joined { (plan : Plan) (limit : ℕ) (port : ClockedPort) (asked : List Command) (e : Ends) → plan.limit ≤ limit →
        AreJoined plan port asked e → AreAlsoJoined (record plan { limit = limit }) port asked e }
    ensures safe { (plan : Plan) (port now : ClockedPort) (asked : List Command) (aired : List Item) (rows : List Row)
        (time : Moment) → AreOfJoined (plan_after plan rows) port asked now aired rows → IsLostAfter plan rows →
        let told : List Row = rows ++ rows_at time (note.End Lost ∷ []) in
        AreOfJoined (plan_after plan told) port asked now aired told }
    // And then it goes on.
    ensures goes_on { (plan : Plan) (limit : ℕ) (rows : List Row) → 1 ≤ plan.limit → plan.limit < limit → AreTold plan start rows →
        outcome_of (after_rows plan start rows).stage ≡ Some Lost →
        outcome_of (after_rows (record plan { limit = limit }) start rows).stage ≡ None }
{}
