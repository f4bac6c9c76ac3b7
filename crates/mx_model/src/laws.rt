//! Theorems that other crates may use.

ghost use Rattle.std.specs.Prelude.{◌≡◌, [], ℕ, false, List, None, Some};
ghost use Rattle.std.specs.List.{AllByRecursion};
ghost use Rattle.mx_request.specs.declared.request.Request.{Request};
ghost use Rattle.mx_row.specs.declared.row.Row.{Row};
ghost use Rattle.mx_schema.specs.Sound.{IsSound};
ghost use Rattle.mx_schema.specs.State.{State};
ghost use Rattle.mx_model.specs.Answers.{answer_in_space, answer_to, state_after_row, state_after_rows};
ghost use Rattle.mx_model.specs.Frame.{AgreeBut, IsNoSchemaWrite, IsDataStatement, OperationHasBytes, StaysSound, answers_from, reads_in, rows_in, state_after_statements};
ghost use Rattle.mx_model.specs.Bases.{Base};
ghost use Rattle.mx_model.specs.Histories.{History, IsLegal, asks_in, asking, history_from, remembered};
ghost use Rattle.mx_model.specs.Touches.{rows_meet};
ghost use Rattle.mx_model.specs.statements.Statement.{Operation, Statement};
ghost use Rattle.mx_write.specs.Change.{state_after_changed};
ghost use Rattle.mx_write.specs.Judge.{row_change};
ghost use Rattle.mx_write.specs.Made.{write_of};
ghost use Rattle.mx_write.specs.Writes.{HasBytes};
ghost use Rattle.mx_write.specs.Touches.{Touched, are_met, touched_by_change};

/// A theorem, which does nothing when it is called: the asks of a legal history determine its steps and
/// replies, but for the requests that were answered out of memory; it is as if these hadn't been asked.
pub fn replies_are_determined()
    ensures { (base : Base) (history : History) → IsLegal base history
        → asking (remembered history) ≡ history_from base [] (asks_in (remembered history)) }
{}

/// A theorem, which does nothing when it is called: what a statement writes to the journal makes of a
/// sound state just what the statement's answer says that it changes, and what writes nothing changes nothing.
pub fn rows_make_their_changes()
    ensures row { (before : State) (asked : Request) (row : Row) → IsSound before → (answer_to before asked).row ≡ Some row
        → ((answer_to before asked).change ≡ row_change before row) × (state_after_row before row ≡ state_after_changed before (answer_to before asked).change) }
    ensures none { (before : State) (asked : Request) → (answer_to before asked).row ≡ None → (answer_to before asked).change ≡ None }
{}

/// A theorem, which does nothing when it is called: the states before and after a statement, or a row,
/// agree but for what it touches.
pub fn a_change_touches_all_that_it_changes()
    ensures statement { (before : State) (space : ℕ) (operation : Operation) → IsSound before
        → AgreeBut (touched_by_change before (answer_in_space before space operation).change) before
        (state_after_changed before (answer_in_space before space operation).change) }
    ensures row { (before : State) (row : Row) → IsSound before
        → AgreeBut (touched_by_change before (row_change before row)) before (state_after_row before row) }
{}

/// A theorem, which does nothing when it is called: of two states that agree but for what was touched, a
/// statement that met nothing of it in the one is answered the same in the other. What it changes then
/// leaves two states that agree so too.
pub fn untouched_statements_are_answered_the_same()
    ensures answer { (touched : List Touched) (one other : State) (space : ℕ) (operation : Operation) → AgreeBut touched one other → IsSound one → IsSound other
        → IsNoSchemaWrite space operation → are_met one touched (answer_in_space one space operation).reads ≡ false
        → answer_in_space other space operation ≡ answer_in_space one space operation }
    ensures after { (touched : List Touched) (one other : State) (space : ℕ) (operation : Operation) → AgreeBut touched one other → IsNoSchemaWrite space operation
        → AgreeBut touched (state_after_changed one (answer_in_space one space operation).change)
        (state_after_changed other (answer_in_space one space operation).change) }
{}

/// A theorem, which does nothing when it is called: so it is with statements one after the other, and
/// with statements before and after rows that touch nothing which they read.
pub fn untouched_runs_are_answered_the_same()
    ensures answers { (touched : List Touched) (one other : State) (statements : List Statement) → AgreeBut touched one other → IsSound one → IsSound other
        → AllByRecursion IsDataStatement statements → are_met one touched (reads_in (answers_from one statements)) ≡ false
        → (answers_from other statements ≡ answers_from one statements)
        × AgreeBut touched (state_after_statements one statements) (state_after_statements other statements) }
    ensures rows { (before : State) (rows : List Row) (statements : List Statement) → StaysSound before rows → AllByRecursion IsDataStatement statements
        → rows_meet before rows (reads_in (answers_from before statements)) ≡ false
        → answers_from (state_after_rows before rows) statements ≡ answers_from before statements }
    ensures sound { (before : State) (rows : List Row) → IsSound before → AllByRecursion (λ (row : Row). HasBytes (write_of row)) rows → StaysSound before rows }
{}

/// A theorem, which does nothing when it is called: what the statements of a transaction have written
/// makes of the state, row after row, what the statements do; and so it does after the rows of others
/// that touch nothing which the statements read.
pub fn a_commit_is_its_statements()
    ensures alone { (before : State) (statements : List Statement) → IsSound before → AllByRecursion (λ (statement : Statement). OperationHasBytes statement.operation) statements
        → (state_after_rows before (rows_in (answers_from before statements)) ≡ state_after_statements before statements)
        × StaysSound before (rows_in (answers_from before statements)) }
    ensures later { (before : State) (others : List Row) (statements : List Statement) → StaysSound before others → AllByRecursion IsDataStatement statements
        → rows_meet before others (reads_in (answers_from before statements)) ≡ false
        → (state_after_rows (state_after_rows before others) (rows_in (answers_from before statements))
        ≡ state_after_statements (state_after_rows before others) statements)
        × StaysSound (state_after_rows before others) (rows_in (answers_from before statements)) }
{}
