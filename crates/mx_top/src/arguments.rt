//! The arguments of a command line.

ghost use Rattle.std.specs.Prelude.{◌≡◌, ◌↔◌, true, map, IsSome};
ghost use Rattle.std.specs.Option.{option_map};
ghost use Rattle.std.specs.String.{string_bytes};
ghost use Rattle.mx_top.specs.Arguments.{directory_argument, is_command, is_directory};

use mx_outside::Names;

/// Whether the arguments are `trace` and a directory.
pub(crate) fn is_command(arguments: &[String]) -> bool
    ensures { result ≡ is_command (map string_bytes arguments.now) }
{
    match arguments {
        [command, directory] => command.as_str() == "trace" && is_directory(directory.as_str()),
        _ => false,
    }
}

/// The directory of a command; `None` where the arguments are unrecognised.
pub fn directory_argument(arguments: &Names) -> Option<&str>
    ensures argument { option_map (λ argument. argument.now) result ≡ directory_argument arguments.now }
    ensures some { IsSome result ↔ (is_command arguments.now ≡ true) }
{
    let arguments = arguments.as_slice();
    if !is_command(arguments) {
        return None;
    }
    match arguments {
        [_, directory] => Some(directory.as_str()),
        _ => None,
    }
}

/// Whether an argument may name a directory: it isn't empty and doesn't begin as an option does.
fn is_directory(argument: &str) -> bool
    ensures { result ≡ is_directory argument.now }
{
    match argument.as_bytes() {
        [] => false,
        [first, ..] => *first != b'-',
    }
}
