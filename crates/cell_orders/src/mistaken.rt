//! Wrong arguments.
ghost use Rattle.std.specs.Prelude.{◌≡◌, ◌++◌, ◌∷◌, [], IfOk, OnOk, codes};
ghost use Rattle.std.specs.Io.KnownBytes.{Appends};

use cell_output::status;
use std::io;
use std::io::Write;

/// Tells among the errors why the arguments are wrong, and gives their status.
pub fn wrong<E: Write>(errors: &mut E, why: &str) -> io::Result<u8>
    ensures status { IfOk result (λ status. status ≡ 2) }
    ensures line { OnOk result (Appends (E.contents errors.old) (E.contents errors.new)
        (codes "error: " ++ (why.now ++ 10 ∷ []))) }
{
    writeln!(errors, "error: {why}")?;
    Ok(status::WRONG_ARGUMENTS)
}
