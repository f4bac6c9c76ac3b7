//! Which names of a directory count.

ghost use Rattle.std.specs.Prelude.{◌≡◌, map, None};
ghost use Rattle.std.specs.List.{filter, last_or, list_all};
ghost use Rattle.std.specs.String.{string_bytes};
ghost use Rattle.std.specs.Option.{option_map};
ghost use Rattle.mx_files.specs.Names.{is_digit, is_numbered, is_journal, is_snapshot, is_draft};

/// How many digits a file's name begins with.
const DIGITS: usize = 20;

fn are_digits(bytes: &[u8]) -> bool
    ensures { result ≡ list_all is_digit bytes.now }
{
    bytes.iter().all(|byte| byte.is_ascii_digit())
}

fn is_numbered(name: &[u8], ending: &[u8]) -> bool
    ensures { result ≡ is_numbered ending.now name.now }
{
    if name.len() != DIGITS + ending.len() {
        return false;
    }
    let (digits, rest) = name.split_at(DIGITS);
    are_digits(digits) && rest == ending
}

/// Whether a name is a journal's.
pub fn is_journal(name: &str) -> bool
    ensures { result ≡ is_journal name.now }
{
    is_numbered(name.as_bytes(), b".xlog")
}

/// Whether a name is a snapshot's.
pub fn is_snapshot(name: &str) -> bool
    ensures { result ≡ is_snapshot name.now }
{
    is_numbered(name.as_bytes(), b".snap")
}

/// Whether a name is that of a draft: a file that was begun and never got its name.
pub fn is_draft(name: &str) -> bool
    ensures { result ≡ is_draft name.now }
{
    let name = name.as_bytes();
    is_numbered(name, b".xlog.inprogress") || is_numbered(name, b".snap.inprogress")
}

/// The last snapshot among names.
pub fn newest_snapshot(names: &[String]) -> Option<&String>
    ensures { option_map (λ name. string_bytes name.now) result ≡ last_or None (filter is_snapshot (map string_bytes names.now)) }
{
    let mut rest = names;
    while let Some((last, earlier)) = rest.split_last() {
        if is_snapshot(last) {
            return Some(last);
        }
        rest = earlier;
    }
    None
}
