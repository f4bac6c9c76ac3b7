//! The units of an input.

ghost use Rattle.std.specs.Prelude.{◌≡◌, ◌+◌, ◌<◌, ◌≤◌, ◌++◌, ℕ, List, [], length, take, drop, Some, Err, IfOk, IfSome, MatchOption, MatchResult};
ghost use Rattle.std.specs.Option.{option_map};
ghost use Rattle.mx_outside.specs.Causes.{HasCauseOf};
ghost use Rattle.mx_top.specs.Units.{content_at, max_offset, unit_by, unit_head_at};
ghost use Rattle.mx_node.specs.Inputs.{max_connection};
ghost use Rattle.mx_top.specs.UnitViews.{head_view};
ghost use Rattle.mx_node.specs.Views.{unit_view};
ghost use Rattle.mx_top.specs.Progress.{StopsAt};
ghost use Rattle.mx_top.specs.declared.stop.Stop.TheVariants.{ReadFault, WriteFault, DiskFault};

use crate::intake::Intake;
use crate::stop::Stop;
use mx_base::ConnId;
use mx_msgpack::number_at;
use mx_node::{MAX_CONNECTION, Unit};
use mx_outside::Source;

/// The bytes before those that a unit brings: a kind, a connection and a length.
pub(crate) const UNIT_HEAD: usize = 9;

/// The maximum number of bytes that a unit brings.
const MAX_UNIT_SIZE: u32 = 16_777_216;

/// The byte that no unit passes.
const MAX_OFFSET: u64 = 1 << 40;

/// What a unit is about.
#[derive(Clone, Copy, PartialEq, Eq)]
pub(crate) enum UnitKind {
    /// Bytes that came on a connection.
    Bytes,
    /// The close of a connection.
    Close,
}

/// The head of a unit, which is before the bytes that it brings.
#[derive(Clone, Copy)]
pub(crate) struct UnitHead {
    pub(crate) kind: UnitKind,
    /// From 0 to 1,023.
    pub(crate) connection: ConnId,
    /// How many bytes the unit brings.
    pub(crate) size: u32,
}

/// Reads the next unit, which begins at this place, so that it waits whole. Gives its head, or
/// nothing at the end of the input.
pub(crate) fn next_unit<S: Source>(
    intake: &mut Intake,
    input: &mut S,
    place: u64,
) -> Result<Option<UnitHead>, Stop>
    ensures told { (left : List ℕ) → S.left input.old ≡ Some left → (more : List ℕ)
        × (S.left input.new ≡ Some more) × (intake.old ++ left ≡ intake.new ++ more)
        × MatchResult result
        (λ found. MatchOption found (intake.new ++ more ≡ []) (λ head. content_at place intake.new
        ≡ Some (unit_by (head_view head) (take head.size (drop 9 intake.new)), drop head.size (drop 9 intake.new))))
        (StopsAt place intake.new more) }
    ensures longer { length intake.old ≤ length intake.new }
    ensures whole { IfOk result (λ found. IfSome found (λ head. (9 + head.size ≤ length intake.new) × ((place + 9) + head.size ≤ max_offset))) }
    ensures connection { IfOk result (λ found. IfSome found (λ head. head.connection.0 ≤ max_connection)) }
    ensures cause { HasCauseOf ReadFault (S.faults input.old) (S.faults input.new) result }
    ensures no_write { result ≡ Err WriteFault → ⊥ }
    ensures no_disk { result ≡ Err DiskFault → ⊥ }
{
    if !intake.fill(input, UNIT_HEAD)? {
        return no_head(intake.len(), place);
    }
    let Some((head, _)) = unit_head_at(place, intake.as_slice()) else {
        return Err(Stop::BadInput { at: place });
    };
    if !intake.fill(input, UNIT_HEAD + head.size as usize)? {
        return Err(Stop::BadInput { at: place });
    }
    Ok(Some(head))
}

/// What fewer bytes than a unit's head are: the end of the input, or a malformed unit.
fn no_head(waiting: usize, place: u64) -> Result<Option<UnitHead>, Stop>
    ensures told { (bytes more : List ℕ) → length bytes ≡ waiting → length bytes < 9 → more ≡ []
        → MatchResult result (λ found. MatchOption found (bytes ++ more ≡ []) (λ _. ⊥)) (StopsAt place bytes more) }
    ensures none { IfOk result (λ found. IfSome found (λ _. ⊥)) }
    ensures no_fault { result ≡ Err ReadFault → ⊥ }
    ensures no_write { result ≡ Err WriteFault → ⊥ }
    ensures no_disk { result ≡ Err DiskFault → ⊥ }
{
    if waiting == 0 {
        Ok(None)
    } else {
        Err(Stop::BadInput { at: place })
    }
}

/// The head of the unit that begins at this place, and the bytes after the head.
#[tactic(auto, unfolding(crate::specs::Units::unit_head_at))]
fn unit_head_at(place: u64, bytes: &[u8]) -> Option<(UnitHead, &[u8])>
    ensures { option_map (λ x. (head_view x.0, x.1.now)) result ≡ unit_head_at place bytes.now }
{
    let (kind, rest) = bytes.split_first()?;
    let (connection, rest) = number_at(rest)?;
    let (size, rest) = number_at(rest)?;
    let kind = match *kind {
        0 => UnitKind::Bytes,
        1 if size == 0 => UnitKind::Close,
        _ => return None,
    };
    if connection > MAX_CONNECTION || size > MAX_UNIT_SIZE {
        return None;
    }
    if place.saturating_add(9).saturating_add(u64::from(size)) > MAX_OFFSET {
        return None;
    }
    let head = UnitHead {
        kind,
        connection: ConnId(connection),
        size,
    };
    Some((head, rest))
}

/// The unit of this head and these bytes.
pub(crate) fn unit_of(head: UnitHead, content: &[u8]) -> Unit<'_>
    ensures { unit_view result ≡ unit_by (head_view head) content.now }
{
    match head.kind {
        UnitKind::Bytes => Unit::Bytes {
            conn: head.connection,
            bytes: content,
        },
        UnitKind::Close => Unit::Close {
            conn: head.connection,
        },
    }
}
