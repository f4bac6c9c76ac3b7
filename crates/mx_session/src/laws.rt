//! Theorems that other crates may use.

ghost use Rattle.std.specs.Prelude.{◌≡◌, ◌++◌, ◌∷◌, [], ℕ, Bool, List, true, false};
ghost use Rattle.mx_frame.specs.Packets.{first_frame, rest_of};
ghost use Rattle.mx_session.specs.declared.job.Job.{Job};
ghost use Rattle.mx_session.specs.Jobs.{ends, jobs_of};
ghost use Rattle.mx_session.specs.Sessions.{JobSeen, MoreNeeded, next_by};

/// A theorem, which does nothing when it is called: what a session returns one after the other are
/// the jobs of all bytes that came, however they are cut.
pub fn jobs_are_those_of_the_stream()
    // What comes next is the first job of the bytes.
    ensures goes_on { (connection : ℕ) (bytes : List ℕ) (job : Job) (rest : List ℕ) → next_by connection bytes (first_frame bytes) ≡ JobSeen job rest false
        → jobs_of connection bytes ≡ job ∷ jobs_of connection rest }
    // A job with which the connection ends is the last one.
    ensures ends { (connection : ℕ) (bytes : List ℕ) (job : Job) (rest : List ℕ) → next_by connection bytes (first_frame bytes) ≡ JobSeen job rest true
        → jobs_of connection bytes ≡ job ∷ [] }
    // Where more is needed there is no job yet.
    ensures needs_more { (connection : ℕ) (bytes : List ℕ) → next_by connection bytes (first_frame bytes) ≡ MoreNeeded → jobs_of connection bytes ≡ [] }
    // What comes next comes next whatever follows.
    ensures stays { (connection : ℕ) (bytes more : List ℕ) (job : Job) (rest : List ℕ) (last : Bool) → next_by connection bytes (first_frame bytes) ≡ JobSeen job rest last
        → next_by connection (bytes ++ more) (first_frame (bytes ++ more)) ≡ JobSeen job (rest ++ more) last }
    // After the end bytes count for nothing.
    ensures ended { (connection : ℕ) (bytes more : List ℕ) → ends connection bytes ≡ true → jobs_of connection (bytes ++ more) ≡ jobs_of connection bytes }
    // Before the end a further piece adds the jobs of what remained, with the piece after it.
    ensures in_pieces { (connection : ℕ) (bytes more : List ℕ) → ends connection bytes ≡ false
        → jobs_of connection (bytes ++ more) ≡ jobs_of connection bytes ++ jobs_of connection (rest_of bytes ++ more) }
{}
