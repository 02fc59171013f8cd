ghost use Rattle.std.specs.Prelude.{◌≡◌, ◌≤◌, length, Ok, IfOk, IfErr};
ghost use Rattle.edit_script.specs.Script.{commands_of, TellsOfScript};

use crate::MOST_SCRIPT;
use crate::fault::ScriptFault;
use crate::grammar::read_line;
use crate::lines::next_line;
use crate::reading::Reading;
use dgn_drawing::Command;
use std::alloc::Global;

/// The commands of a script of at most `MOST_SCRIPT` bytes, in the order of its lines.
///
/// `Line` comes exactly where a line is bad, or a fifth asks for an import, and tells the number of the first. `Memory`
/// says that there was none for the list of commands, or for the points or the characters of one of them.
pub fn read_script(alloc: Global, bytes: &[u8]) -> Result<Vec<Command>, ScriptFault>
    requires { length bytes.now ≤ MOST_SCRIPT }
    ensures commands { IfOk result (λ v. commands_of bytes.now ≡ Ok v.items) }
    ensures fault { IfErr result (TellsOfScript bytes.now) }
{
    let mut commands = Vec::new(alloc);
    let mut rest = bytes;
    let mut number = 1;
    let mut imports = 0;
    'lines: while let Some((line, behind)) = next_line(rest) {
        let Ok(reading) = read_line(alloc, line) else {
            return Err(ScriptFault::Memory);
        };
        let with_this = reading.imports_with(imports);
        match reading.limited(imports) {
            Reading::Nothing => {}
            Reading::Asks(command) => commands.push(command).map_err(|_| ScriptFault::Memory)?,
            Reading::Bad => return Err(ScriptFault::Line { number }),
        }
        rest = behind;
        number += 1;
        imports = with_this;
    }
    Ok(commands)
}
