//! Theorems on open transactions as they are kept. Each is a function that does nothing when it is called.

ghost use Rattle.std.specs.Prelude.{◌≡◌, ◌∷◌, ◌++◌, [], Bool, List, None, length};
ghost use Rattle.std.specs.List.{AllByRecursion};
ghost use Rattle.mx_row.specs.declared.tx.Tx.{Tx};
ghost use Rattle.mx_schema.specs.Sound.{IsSound};
ghost use Rattle.mx_schema.specs.State.{State};
ghost use Rattle.mx_tracker.specs.declared.touched.Touched as coded;
ghost use Rattle.mx_txn.specs.Slots.{max_open};
ghost use Rattle.mx_model.specs.declared.ids.Ids.{Ids};
ghost use Rattle.mx_model.specs.Alone.{AllStandAlone, HaveBytes};
ghost use Rattle.mx_model.specs.Frame.{IsDataStatement};
ghost use Rattle.mx_model.specs.RunAlone.{run_alone};
ghost use Rattle.mx_model.specs.Streams.{Streams};
ghost use Rattle.mx_model.specs.Transactions.{is_schema_commit};
ghost use Rattle.mx_model.specs.statements.Statement.{Statement};
ghost use Rattle.mx_transactions.specs.Open.{HoldsOpen, Open, newest_state};
ghost use Rattle.mx_transactions.specs.OpenSteps.{AreMarks, Moves, SpellsRows, StandsOn, ViewsAreKept};

/// Where the slots hold the open transactions, and a commit moves them by marks that are right, they hold
/// the open transactions behind that commit: one that it doesn't overlap has come to the same on the state
/// after it, one that it overlaps reads the state before it or conflicts, and none is lost.
pub fn a_commit_moves_open_transactions()
    ensures { (streams : Streams) (commit : Tx) (old new : Open) (marks : List Bool) (keys : List coded.Touched) (is_schema : Bool)
        → AllStandAlone streams → HaveBytes commit.rows → is_schema ≡ is_schema_commit commit → SpellsRows (newest_state streams) commit.rows keys → AreMarks old marks keys
        → Moves old new marks is_schema (length streams.journal) → length old.works ≡ max_open
        → ViewsAreKept old marks (length streams.journal) None → HoldsOpen streams old
        → HoldsOpen (record streams { journal = streams.journal ++ commit ∷ [] }) new }
{}

/// What the statements of a transaction come to alone on a sound state is that state under their changes,
/// and after their rows.
pub fn a_run_stands_on_its_state()
    ensures { (ids : Ids) (before : State) (statements : List Statement) → IsSound before → AllByRecursion IsDataStatement statements
        → StandsOn before (run_alone ids before statements) }
{}
