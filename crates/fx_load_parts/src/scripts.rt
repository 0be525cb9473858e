//! Reading a script: its lines, and what each asks for.
ghost use Rattle.std.specs.Prelude.{◌≡◌, ◌≤◌, Err, IfOk, Vec, length, map, vec_len};
ghost use Rattle.std.specs.Global.{Global};
ghost use Rattle.std.specs.Str.{IsUtf8, chars};
ghost use Rattle.fx_base.specs.Positions.{after_all, start};
ghost use Rattle.fx_load_parts.specs.Scripts.{script_of};
ghost use Rattle.fx_load_parts.specs.Says.{LoadSays};
ghost use Rattle.fx_script_commands.specs.Requests.{line_view};
ghost use Rattle.fx_script_commands.specs.Scripts.{HasFault};
ghost use Rattle.fx_script_commands.specs.declared.commands.Line.{Line};

use crate::files::{FileFault, LoadError};
use fx_base::Position;
use fx_doc::position_behind;
use fx_scene_flaws::{FaultKind, Flaw};
use fx_script_commands::{Line, ScriptError};
use std::alloc::Global;
use std::str;

/// Where the first line stands that a script is too long by.
const FIRST_PAST: Position = Position {
    line: 100_001,
    column: 1,
};

/// The lines of a script, or why it is refused.
pub fn read_script<'a>(
    alloc: Global,
    name: &'a str,
    bytes: &[u8],
) -> Result<Vec<Line>, LoadError<'a>>
    requires { length bytes.now ≤ 4194304 }
    ensures says { LoadSays (λ lines. map line_view lines.items) result (script_of name.now bytes.now) }
    ensures few { IfOk result (λ lines. vec_len lines ≤ 100000) }
    ensures fetches_nothing { ¬ (result ≡ Err LoadError.Failed) }
{
    match fx_script_commands::read_script(alloc, bytes) {
        Ok(lines) => Ok(lines),
        Err(error) => Err(refused(name, bytes, error)),
    }
}

/// The refusal of a file that is no script.
fn refused<'a>(name: &'a str, bytes: &[u8], error: ScriptError) -> LoadError<'a>
    requires size { length bytes.now ≤ 4194304 }
    requires fault { HasFault bytes.now error }
    ensures says { LoadSays (λ (lines : Vec Line Global). map line_view lines.items) (Err result)
        (script_of name.now bytes.now) }
    ensures fetches_nothing { ¬ (result ≡ LoadError.Failed) }
{
    match error {
        ScriptError::NotUtf8(valid) => {
            let position = place_behind(bytes.split_at(valid).0);
            LoadError::Fault(FileFault::at(FaultKind::NotUtf8, name, position))
        }
        ScriptError::TooManyLines => {
            LoadError::Fault(FileFault::at(FaultKind::Flawed(Flaw::Limit), name, FIRST_PAST))
        }
        ScriptError::Memory => LoadError::Memory,
    }
}

/// The position behind the text of these bytes.
pub(crate) fn place_behind(bytes: &[u8]) -> Position
    requires text { IsUtf8 bytes.now }
    requires size { length bytes.now ≤ 4194304 }
    ensures { result ≡ after_all start (chars bytes.now) }
{
    match str::from_utf8(bytes) {
        Ok(text) => position_behind(text),
        Err(_) => Position::START,
    }
}
