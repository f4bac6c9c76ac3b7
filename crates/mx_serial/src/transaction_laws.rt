//! Theorems on transactions that are open beside others. Each is a function that does nothing when it is
//! called.

ghost use Rattle.std.specs.Prelude.{◌≡◌, ◌≢◌, ◌⊎◌, ◌↔◌, ◌&&◌, ℕ, ◌+◌, ◌<◌, ◌≤◌, ◌++◌, suc, pred, Bool, true, false, List, [], ◌∷◌, length, map, Some, is_some, slice_get};
ghost use Rattle.std.specs.List.{AllByRecursion};
ghost use Rattle.mx_base.specs.declared.ids.TxnName.{TxnName};
ghost use Rattle.mx_base.specs.declared.refusal.Refusal.TheVariants.{Conflict, OutOfMemory};
ghost use Rattle.mx_request.specs.declared.request.Request.{Request};
ghost use Rattle.mx_request.specs.declared.request.Request.TheVariants as request;
ghost use Rattle.mx_row.specs.declared.row.Row.{Row};
ghost use Rattle.mx_row.specs.declared.tx.Tx.{Tx};
ghost use Rattle.mx_schema.specs.Sound.{IsSound};
ghost use Rattle.mx_schema.specs.State.{State};
ghost use Rattle.mx_write.specs.Writable.{describes_schema};
ghost use Rattle.mx_model.specs.declared.ids.Ids.{Ids};
ghost use Rattle.mx_model.specs.declared.reply.Reply.{Reply};
ghost use Rattle.mx_model.specs.declared.reply.Reply.TheVariants.{Empty, Refused};
ghost use Rattle.mx_model.specs.Alone.{AllStandAlone, StandsAlone, answers_alone};
ghost use Rattle.mx_model.specs.Answers.{state_after_rows};
ghost use Rattle.mx_model.specs.Frame.{IsDataStatement};
ghost use Rattle.mx_model.specs.Bases.{CanBeAsked, Base, is_out_of_memory};
ghost use Rattle.mx_model.specs.Histories.{History, IsLegal, journal_of, ledger_of};
ghost use Rattle.mx_model.specs.HistoryStreams.{streams_in};
ghost use Rattle.mx_model.specs.Overlaps.{Active, Doomed, IsWithin, TransactionStep, Transaction, View, has_row, is_some_row, place_read, reads_before, standing, standing_after_commit, standing_after_step, state_after_first, statements_in};
ghost use Rattle.mx_model.specs.RunAlone.{run_alone, writes, answer_alone};
ghost use Rattle.mx_serial.specs.Serializability.{IsSerialOrder, IsSerializable, transactions_of_history};
ghost use Rattle.mx_model.specs.Streams.{IsTold, Streams, commit_with, needs_no_memory, outcome_of, streams_after, streams_left, told_as, transaction_named, transaction_with, transaction_with_all, Goes, state_read, step_of};
ghost use Rattle.mx_model.specs.StreamHistories.{HaveOwnNames, IsLegalStreams, RanAlone, Requested, StreamHistory, begun_in, ended_in, streams_of, streams_with};
ghost use Rattle.mx_model.specs.Touches.{rows_meet};
ghost use Rattle.mx_model.specs.Transactions.{is_schema_commit, state_after};
ghost use Rattle.mx_model.specs.statements.Answer.{Answer};
ghost use Rattle.mx_model.specs.statements.Statement.{Statement, statement_of};

/// A commit changes how an open transaction stands exactly as the table of `standing_after_commit` says: it
/// overlaps one that wasn't overlapped where it touches what that one has read, and dooms one that has a
/// row then; a schema commit dooms each one that is overlapped.
pub fn a_commit_moves_what_it_overlaps()
    ensures { (ids : Ids) (base : State) (journal : List Tx) (commit : Tx) (transaction : Transaction) → IsWithin (length journal) transaction
        → standing ids base (journal ++ commit ∷ []) false transaction
        ≡ standing_after_commit (has_row ids base journal (length journal) transaction.steps) (is_schema_commit commit)
        (rows_meet (state_after base journal) commit.rows (reads_before (suc (length journal)) transaction.steps)) (length journal)
        (standing ids base journal false transaction) }
{}

/// A statement of a transaction's own changes how it stands only where it is overlapped and the statement
/// writes: then it is doomed, at that statement already.
pub fn a_write_dooms_what_is_overlapped()
    ensures at { (ids : Ids) (base : State) (journal : List Tx) (is_write : Bool) (transaction : Transaction)
        → standing ids base journal is_write transaction ≡ standing_after_step is_write (standing ids base journal false transaction) }
    ensures after { (ids : Ids) (base : State) (journal : List Tx) (step : TransactionStep) (transaction : Transaction) → step.after ≡ length journal
        → standing ids base journal false (transaction_with step transaction)
        ≡ standing_after_step (writes step.statement.operation) (standing ids base journal false transaction) }
{}

/// Where a transaction is doomed, a commit since its BEGIN touched a key or a gap that it had read before.
pub fn a_conflict_has_its_commit()
    ensures { (ids : Ids) (base : State) (journal : List Tx) (is_write : Bool) (transaction : Transaction) → standing ids base journal is_write transaction ≡ Doomed
        → (number : ℕ) × (commit : Tx) × (transaction.begun < number) × (number ≤ length journal) × (slice_get journal (pred number) ≡ Some commit)
        × (rows_meet (state_after_first base journal (pred number)) commit.rows (reads_before number transaction.steps) ≡ true) }
{}

/// Whatever is asked, all open transactions were answered as if each ran alone on the prefix of the journal
/// that it reads.
pub fn open_transactions_stand_alone()
    ensures asked { (streams : Streams) (name : TxnName) (asked : Request) → AllStandAlone streams → CanBeAsked asked
        → AllStandAlone (streams_after streams name (outcome_of streams name asked)) }
    ensures left { (streams : Streams) (connection : ℕ) → AllStandAlone streams → AllStandAlone (streams_left streams connection) }
{}

/// So a transaction that isn't overlapped was answered as if it ran alone on the newest state, just before
/// its commit.
pub fn a_commit_was_answered_alone()
    ensures { (ids : Ids) (base : State) (journal : List Tx) (transaction : Transaction) → StandsAlone ids base journal transaction → standing ids base journal false transaction ≡ Active
        → map (λ (step : TransactionStep). step.reply) transaction.steps
        ≡ map (λ (answer : Answer). answer.reply) (run_alone ids (state_after base journal) (statements_in transaction.steps)).answers }
{}

/// And what it commits makes of that state what its statements did when they ran alone.
pub fn a_commit_makes_what_its_statements_did()
    ensures rows { (ids : Ids) (before : State) (statements : List Statement) → IsSound before → AllByRecursion IsDataStatement statements
        → state_after_rows before (run_alone ids before statements).rows ≡ (run_alone ids before statements).state }
    ensures journal { (streams : Streams) (transaction : Transaction) → AllStandAlone streams
        → StandsAlone streams.base.ids streams.base.state streams.journal transaction
        → state_after streams.base.state (streams.journal ++ commit_with streams (run_alone streams.base.ids (state_after streams.base.state streams.journal) (statements_in transaction.steps)).rows)
        ≡ (run_alone streams.base.ids (state_after streams.base.state streams.journal) (statements_in transaction.steps)).state }
{}

/// Transactions are strictly serializable: one whose COMMIT is accepted was answered as if it ran alone on a
/// prefix of the journal that has all that was committed before its BEGIN. Where it commits rows this is the
/// whole journal, and the state after it is that of its run.
pub fn committed_transactions_are_serializable()
    ensures replies { (streams : Streams) (name : TxnName) (transaction : Transaction) → AllStandAlone streams → transaction_named name streams.transactions ≡ Some transaction
        → (outcome_of streams name request.Commit).reply ≡ Empty
        → map (λ (step : TransactionStep). step.reply) transaction.steps
        ≡ map (λ (answer : Answer). answer.reply) (answers_alone streams.base.ids streams.base.state streams.journal transaction) }
    ensures place { (streams : Streams) (name : TxnName) (transaction : Transaction) → AllStandAlone streams → transaction_named name streams.transactions ≡ Some transaction
        → (transaction.begun ≤ place_read streams.base.state streams.journal transaction) × (place_read streams.base.state streams.journal transaction ≤ length streams.journal) }
    ensures rows { (streams : Streams) (name : TxnName) (transaction : Transaction) → AllStandAlone streams → transaction_named name streams.transactions ≡ Some transaction
        → is_some_row (outcome_of streams name request.Commit).rows ≡ true
        → (place_read streams.base.state streams.journal transaction ≡ length streams.journal)
        × (state_after streams.base.state (streams_after streams name (outcome_of streams name request.Commit)).journal
        ≡ (run_alone streams.base.ids (state_after streams.base.state streams.journal) (statements_in transaction.steps)).state) }
{}

/// A transaction that a commit has overlapped, and that isn't doomed, reads the prefix before that commit for
/// the rest of its life, whatever is committed and whatever it states: it is answered as if it ran alone there.
pub fn a_view_keeps_its_place()
    ensures place { (ids : Ids) (base : State) (journal more : List Tx) (further : List TransactionStep) (transaction : Transaction) (place : ℕ)
        → standing ids base journal false transaction ≡ View place → AllByRecursion (λ (step : TransactionStep). length journal ≤ step.after) further
        → (place < length journal) × (state_after_first base (journal ++ more) place ≡ state_after_first base journal place)
        × (place_read base (journal ++ more) (transaction_with_all further transaction) ≡ place)
        × ((standing ids base (journal ++ more) false (transaction_with_all further transaction) ≡ View place)
        ⊎ (standing ids base (journal ++ more) false (transaction_with_all further transaction) ≡ Doomed)) }
    ensures replies { (ids : Ids) (base : State) (journal more : List Tx) (further : List TransactionStep) (transaction : Transaction) (place : ℕ)
        → standing ids base journal false transaction ≡ View place → AllByRecursion (λ (step : TransactionStep). length journal ≤ step.after) further
        → StandsAlone ids base (journal ++ more) (transaction_with_all further transaction)
        → standing ids base (journal ++ more) false (transaction_with_all further transaction) ≢ Doomed
        → map (λ (step : TransactionStep). step.reply) (further ++ transaction.steps)
        ≡ map (λ (answer : Answer). answer.reply) (run_alone ids (state_after_first base journal place) (statements_in (further ++ transaction.steps))).answers }
{}

/// COMMIT of an open transaction is told a conflict exactly where the transaction is doomed, and so is a
/// statement of it, at that statement: no statement is told one by itself.
pub fn conflict_is_told_where_a_transaction_is_doomed()
    ensures commit { (streams : Streams) (name : TxnName) (transaction : Transaction) → transaction_named name streams.transactions ≡ Some transaction → name.stream.0 ≢ 0
        → ((outcome_of streams name request.Commit).reply ≡ Refused Conflict) ↔ (standing streams.base.ids streams.base.state streams.journal false transaction ≡ Doomed) }
    ensures statement { (streams : Streams) (name : TxnName) (transaction : Transaction) → transaction_named name streams.transactions ≡ Some transaction
        → (asked : Request) (statement : Statement) → statement_of asked ≡ Some statement → (writes statement.operation && describes_schema statement.space) ≡ false
        → ((outcome_of streams name asked).reply ≡ Refused Conflict) ↔ (standing streams.base.ids streams.base.state streams.journal (writes statement.operation) transaction ≡ Doomed) }
{}

/// A statement of an open transaction goes on with it, together with what it was told and what it reads alone;
/// but for writes of the rows that describe spaces and indexes, which are refused there.
pub fn a_statement_is_kept_as_it_was_told()
    ensures { (streams : Streams) (name : TxnName) (transaction : Transaction) → transaction_named name streams.transactions ≡ Some transaction
        → (asked : Request) (statement : Statement) → statement_of asked ≡ Some statement → (writes statement.operation && describes_schema statement.space) ≡ false
        → (outcome_of streams name asked).becomes
        ≡ Goes (step_of streams statement (answer_alone streams.base.ids (state_read streams transaction) statement (statements_in transaction.steps)) (outcome_of streams name asked).reply) }
{}

/// Where COMMIT commits rows, the transaction isn't overlapped: it was answered as if it ran alone on the
/// newest state, and the rows are those that it leaves there.
pub fn committed_rows_are_those_of_running_alone()
    ensures { (streams : Streams) (name : TxnName) (transaction : Transaction) → AllStandAlone streams → transaction_named name streams.transactions ≡ Some transaction
        → (row : Row) (others : List Row) → (outcome_of streams name request.Commit).rows ≡ row ∷ others
        → (standing streams.base.ids streams.base.state streams.journal false transaction ≡ Active)
        × (map (λ (step : TransactionStep). step.reply) transaction.steps
        ≡ map (λ (answer : Answer). answer.reply) (run_alone streams.base.ids (state_after streams.base.state streams.journal) (statements_in transaction.steps)).answers)
        × (row ∷ others ≡ (run_alone streams.base.ids (state_after streams.base.state streams.journal) (statements_in transaction.steps)).rows) }
{}

/// The theorem of serializability: in a legal history each transaction that ended was answered as if it ran
/// alone, on a prefix of the journal that has all that was committed before its BEGIN. One whose COMMIT was
/// acknowledged committed exactly the rows of running alone, right behind that prefix, and its replies are
/// exactly those; a statement or a COMMIT is told a conflict only where a commit since its BEGIN touched what
/// had been read before. All transactions that are still open were answered so too.
pub fn every_transaction_ran_alone()
    ensures ended { (base : Base) (history : StreamHistory) → IsLegalStreams base history
        → AllByRecursion (RanAlone base (streams_of base history).journal) (ended_in base history) }
    ensures still_there { (base : Base) (history : StreamHistory) → IsLegalStreams base history → AllStandAlone (streams_of base history) }
{}

/// So it is in every legal history of a database: what it comes to follows from its requests and disconnects
/// alone, which are a legal history of streams.
pub fn transactions_of_a_history_ran_alone()
    ensures streams { (base : Base) (history : History) → (ledger_of base history).streams ≡ streams_of base (streams_in history) }
    ensures legal { (base : Base) (history : History) → IsLegal base history → IsLegalStreams base (streams_in history) }
    ensures ran { (base : Base) (history : History) → IsLegal base history
        → AllByRecursion (RanAlone base (journal_of base history)) (ended_in base (streams_in history)) }
    ensures still_there { (base : Base) (history : History) → IsLegal base history → AllStandAlone (ledger_of base history).streams }
{}

/// So a legal history of a database is serializable: its transactions and the statements outside of them were
/// each answered as if alone, those that write in the order of the journal.
pub fn legal_histories_are_serializable()
    ensures { (base : Base) (history : History) → IsLegal base history → IsSerializable base history }
{}

/// None is lost: as many transactions have ended or are open as were begun, and no two that are open have one
/// name.
pub fn every_transaction_ended_or_is_open()
    ensures counts { (base : Base) (history : StreamHistory) → IsLegalStreams base history
        → begun_in history ≡ length (ended_in base history) + length (streams_of base history).transactions }
    ensures names { (base : Base) (history : StreamHistory) → IsLegalStreams base history → HaveOwnNames (streams_of base history).transactions }
{}

/// No reply that is demanded is out of memory: a request is told so only where an allocation failed, and it
/// then counts as not asked.
pub fn out_of_memory_is_never_demanded()
    ensures { (streams : Streams) (name : TxnName) (asked : Request) → is_out_of_memory (outcome_of streams name asked).reply ≡ false }
{}

/// What a request was told is what its record has: whatever a statement of an open transaction was told, the
/// transaction keeps it with that. The outcome with the reply that it demands is that outcome, so in a legal history
/// a request that had memory comes to its outcome.
pub fn what_was_told_is_recorded()
    ensures kept { (streams : Streams) (name : TxnName) (transaction : Transaction) → transaction_named name streams.transactions ≡ Some transaction
        → (asked : Request) (statement : Statement) → statement_of asked ≡ Some statement → (writes statement.operation && describes_schema statement.space) ≡ false
        → (reply : Reply) → (told_as reply (outcome_of streams name asked)).becomes
        ≡ Goes (step_of streams statement (answer_alone streams.base.ids (state_read streams transaction) statement (statements_in transaction.steps)) reply) }
    ensures demanded { (streams : Streams) (name : TxnName) (asked : Request)
        → told_as (outcome_of streams name asked).reply (outcome_of streams name asked) ≡ outcome_of streams name asked }
    ensures legal { (streams : Streams) (name : TxnName) (asked : Request) (reply : Reply) → IsTold streams name asked reply → is_out_of_memory reply ≡ false
        → streams_with streams (Requested name asked reply) ≡ streams_after streams name (outcome_of streams name asked) }
{}

/// Memory runs out only where it is asked for: a request that was told so is a COMMIT of rows, which would have
/// been acknowledged, or a statement, which would have been told no conflict, nor that the node takes no writes or
/// a transaction no change of spaces and indexes.
pub fn memory_runs_out_only_where_it_is_asked_for()
    ensures commit { (streams : Streams) (name : TxnName) → IsTold streams name request.Commit (Refused OutOfMemory)
        → (is_some_row (outcome_of streams name request.Commit).rows ≡ true) × ((outcome_of streams name request.Commit).reply ≡ Empty) }
    ensures statement { (streams : Streams) (name : TxnName) (asked : Request) → asked ≢ request.Commit → IsTold streams name asked (Refused OutOfMemory)
        → is_some (statement_of asked) ≡ true }
    ensures reply { (streams : Streams) (name : TxnName) (asked : Request) → IsTold streams name asked (Refused OutOfMemory)
        → needs_no_memory (outcome_of streams name asked).reply ≡ false }
{}

/// The transactions of a legal history and its journal are one serial order: each has a k, not before its BEGIN,
/// such that its replies are those of running alone on the first k transactions of the journal, or conflicts; its
/// rows, if it committed any, are the next transaction; each conflict has a commit since the BEGIN that wrote a key
/// or a gap which the transaction had read before; and each transaction of the journal is one's. A statement by
/// itself is a transaction of one step.
pub fn transactions_have_a_serial_order()
    ensures { (base : Base) (history : StreamHistory) → IsLegalStreams base history
        → IsSerialOrder base (streams_of base history).journal (transactions_of_history base history) }
{}
