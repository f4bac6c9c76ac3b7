//! What bytes can become, whatever follows them.

ghost use Rattle.std.specs.Prelude.{◌≡◌, ◌+◌, ◌<◌, ◌^◌, ℕ};
ghost use Rattle.mx_completion.specs.declared.completion.Completion.TheVariants.{Whole};
ghost use Rattle.mx_completion.specs.Sequences.{longer};

/// What bytes can become that are to spell a value of some form.
#[derive(Clone, Copy)]
pub enum Completion {
    /// One stands first, in so many bytes.
    Whole { size: usize },
    /// They end inside one, and it takes so many more bytes at least.
    Missing { least: usize },
    /// None stands first, whatever bytes follow.
    Impossible,
}

/// The completion of bytes that so many stand before.
pub(crate) fn longer(before: usize, completion: Completion) -> Completion
    requires { (size : ℕ) → completion ≡ Whole size → before + size < 2 ^ 64 }
    ensures { result ≡ longer before completion }
{
    match completion {
        Completion::Whole { size } => Completion::Whole {
            size: before + size,
        },
        Completion::Missing { least } => Completion::Missing { least },
        Completion::Impossible => Completion::Impossible,
    }
}
