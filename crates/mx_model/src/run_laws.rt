//! Theorems on what a transaction that runs alone touches. Each is a function that does nothing when it is
//! called.

ghost use Rattle.std.specs.Prelude.{◌≡◌, ◌||◌, ◌∷◌, [], List, false, map};
ghost use Rattle.std.specs.List.{AllByRecursion, list_any};
ghost use Rattle.mx_row.specs.declared.row.Row.{Row};
ghost use Rattle.mx_row.specs.declared.tx.Tx.{Tx};
ghost use Rattle.mx_schema.specs.Catalogues.{schema_of};
ghost use Rattle.mx_schema.specs.Sound.{IsSound};
ghost use Rattle.mx_schema.specs.State.{State};
ghost use Rattle.mx_write.specs.Change.{Change};
ghost use Rattle.mx_write.specs.Reads.{Read};
ghost use Rattle.mx_model.specs.declared.ids.Ids.{Ids};
ghost use Rattle.mx_model.specs.Alone.{HaveBytes};
ghost use Rattle.mx_model.specs.Answers.{state_after_rows};
ghost use Rattle.mx_model.specs.Frame.{IsDataStatement, StaysSound, reads_in};
ghost use Rattle.mx_model.specs.RunAlone.{run_alone};
ghost use Rattle.mx_model.specs.RunTouches.{changes_of, puts_of, stood_under};
ghost use Rattle.mx_write.specs.Touches.{Touched, is_met};
ghost use Rattle.mx_model.specs.Touches.{rows_meet};
ghost use Rattle.mx_model.specs.Transactions.{state_after};
ghost use Rattle.mx_model.specs.statements.Answer.{Answer};
ghost use Rattle.mx_model.specs.statements.Statement.{Statement};

/// The rows of a run meet a read exactly where a tuple meets it that the run's changes put, or one that stood
/// under their keys in the state before. And rows that touch nothing which the run read leave the spaces that
/// it changes as they are described, so that the same tuples meet a read after them.
pub fn what_a_run_touches()
    ensures touches { (ids : Ids) (before : State) (statements : List Statement) (read : Read) → IsSound before → AllByRecursion IsDataStatement statements
        → rows_meet before (run_alone ids before statements).rows (read ∷ [])
        ≡ (list_any (is_met before read) (puts_of (changes_of (run_alone ids before statements).answers))
        || list_any (is_met before read) (stood_under before (changes_of (run_alone ids before statements).answers))) }
    ensures schemas { (ids : Ids) (before : State) (rows : List Row) (statements : List Statement) → StaysSound before rows → AllByRecursion IsDataStatement statements
        → rows_meet before rows (reads_in (run_alone ids before statements).answers) ≡ false
        → AllByRecursion (λ (change : Change). schema_of before change.space ≡ schema_of (state_after_rows before rows) change.space)
        (changes_of (run_alone ids before statements).answers) }
    ensures meets { (one other : State) (read : Read) (touched : List Touched)
        → AllByRecursion (λ (t : Touched). schema_of one t.space ≡ schema_of other t.space) touched → list_any (is_met one read) touched ≡ list_any (is_met other read) touched }
{}

/// The frame of a transaction that runs alone: before and after a commit that touches nothing which it reads, it
/// is told the same replies, reads the same and leaves the same rows.
pub fn a_commit_leaves_a_run_that_it_misses()
    ensures { (ids : Ids) (before : State) (commit : Tx) (statements : List Statement) → IsSound before → HaveBytes commit.rows → AllByRecursion IsDataStatement statements
        → rows_meet before commit.rows (reads_in (run_alone ids before statements).answers) ≡ false
        → (map (λ (answer : Answer). answer.reply) (run_alone ids (state_after before (commit ∷ [])) statements).answers
        ≡ map (λ (answer : Answer). answer.reply) (run_alone ids before statements).answers)
        × (map (λ (answer : Answer). answer.reads) (run_alone ids (state_after before (commit ∷ [])) statements).answers
        ≡ map (λ (answer : Answer). answer.reads) (run_alone ids before statements).answers)
        × ((run_alone ids (state_after before (commit ∷ [])) statements).rows ≡ (run_alone ids before statements).rows) }
{}
