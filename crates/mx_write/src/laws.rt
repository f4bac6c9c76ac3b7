//! Theorems that other crates may use.

ghost use Rattle.std.specs.Prelude.{◌≡◌, ◌<◌, ◌^◌, ℕ, None, Ok, Some};
ghost use Rattle.mx_row.specs.declared.row.Row.{Row};
ghost use Rattle.mx_row.specs.Rows.{IsRow};
ghost use Rattle.mx_schema.specs.Sound.{IsSound};
ghost use Rattle.mx_schema.specs.State.{State};
ghost use Rattle.mx_write.specs.Change.{state_after_changed};
ghost use Rattle.mx_write.specs.Judge.{judged_row, judged_write};
ghost use Rattle.mx_write.specs.Made.{Made};
ghost use Rattle.mx_write.specs.Writes.{HasBytes, IsWellFormed, Write};
ghost use Rattle.mx_write.specs.declared.writable.Writer.TheVariants.{Client};

/// A theorem, which does nothing when it is called: what a client's write makes of a sound state, its row
/// makes again, judged as a row of a journal.
pub fn a_row_makes_its_write_again()
    ensures { (before : State) (space : ℕ) (write : Write) (made : Made) (row : Row) → IsSound before → IsWellFormed write
        → (judged_write Client before space write).outcome ≡ Ok made → made.row ≡ Some row → (judged_row before row).outcome ≡ Ok made }
{}

/// A theorem, which does nothing when it is called: the row of a client's write in a sound state can be
/// written to a journal; and what leaves no row changes nothing.
pub fn a_write_leaves_a_row()
    ensures row { (before : State) (space : ℕ) (write : Write) (made : Made) (row : Row) → IsSound before → IsWellFormed write → space < 2 ^ 32
        → (judged_write Client before space write).outcome ≡ Ok made → made.row ≡ Some row → IsRow row }
    ensures none { (before : State) (space : ℕ) (write : Write) (made : Made)
        → (judged_write Client before space write).outcome ≡ Ok made → made.row ≡ None → made.change ≡ None }
{}

/// A theorem, which does nothing when it is called: a write whose tuple is bytes keeps a state sound.
pub fn a_write_keeps_a_state_sound()
    ensures { (before : State) (space : ℕ) (write : Write) (made : Made) → IsSound before → HasBytes write
        → (judged_write Client before space write).outcome ≡ Ok made → IsSound (state_after_changed before made.change) }
{}
