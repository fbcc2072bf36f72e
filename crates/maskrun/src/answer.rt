//! What the program prints for its command line.

ghost use Rattle.std.specs.Prelude.{◌≡◌, ◌⊎◌, Ok, Err, map, IfOk, IfErr, string_bytes};
ghost use Rattle.std.specs.Result.{ForErr};
ghost use Rattle.maskrun.specs.Commands.{command_of, line, out_of_memory};

use crate::command::Command;
pub use crate::error::RunError;
use std::alloc::Global;

/// The line for `words`: `rank A B`, `and A B`, `or A B`, `andnot A B`, `not A`, `slice A S E`, `limit A K`, `cat A ..`,
/// `pipe A B ..`, `indices A` or `ranges A`.
///
/// A mask is `-`, which has no values, or a `0` or `1` for each value. A number is one or more digits. Anything else is
/// `RunError::Usage`. A list is printed with a space between its items, and as `-` where it has none.
///
/// All arguments are read before memory is asked for.
pub fn answer(alloc: Global, words: &[String]) -> Result<String, RunError>
    ensures text { IfOk result (λ t. line (map string_bytes words.now) ≡ Ok (string_bytes t)) }
    ensures fault { IfErr result (λ e. (line (map string_bytes words.now) ≡ Err e)
        ⊎ (e ≡ out_of_memory)) }

    // A fault of the arguments themselves is never reported as out of memory.
    ensures arguments { ForErr (command_of (map string_bytes words.now)) (λ e. result ≡ Err e) }
{
    Command::parse(words)?.line(alloc)
}
