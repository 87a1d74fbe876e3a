//! Reads a script.
ghost use Rattle.std.specs.Prelude.{◌≡◌, ◌+◌, ◌^◌, ◌<◌, length, IfOk, IfErr};
ghost use Rattle.schedule_sim.specs.Lines.{lines_of, told_from};
ghost use Rattle.schedule_sim.specs.Script.{AreLines, IsFirstFault, IsScript, IsFault, IsTold};

use crate::line::{LineFault, line_of};
use crate::opening::opening_of;
use crate::script::{Numbered, Script, ScriptFault};
use crate::told::Lines;
use intern_log::Kind;
use std::alloc::Global;

/// Reads the lines that are left.
fn lines_of(alloc: Global, kind: Kind, lines: &mut Lines<'_>) -> Result<Vec<Numbered>, ScriptFault>
    requires room { lines.old.taken + length lines.old.rest.now < 2 ^ 64 }
    ensures read { IfOk result (λ read. AreLines kind (told_from (lines.old.taken + 1) (lines_of lines.old.rest.now)) read.items) }
    ensures fault { IfErr result (IsTold (IsFirstFault kind (told_from (lines.old.taken + 1) (lines_of lines.old.rest.now)))) }
{
    let mut read = Vec::new(alloc);
    while let Some(bytes) = lines.next_told() {
        let number = lines.taken;
        match line_of(alloc, kind, bytes) {
            Ok(line) => {
                let Ok(()) = read.push(Numbered { number, line }) else {
                    return Err(ScriptFault::OutOfMemory);
                };
            },
            Err(LineFault::NotOfForm) => return Err(ScriptFault::Line { number }),
            Err(LineFault::OutOfMemory) => return Err(ScriptFault::OutOfMemory),
        }
    }
    Ok(read)
}

/// Reads a script. Each line that is not passed over is of the form, or the first that is not is told,
/// by its number.
pub fn parse_script(alloc: Global, bytes: &[u8]) -> Result<Script, ScriptFault>
    ensures script { IfOk result (IsScript bytes.now) }
    ensures fault { IfErr result (IsTold (IsFault bytes.now)) }
{
    let mut lines = Lines::of(bytes);
    let Some(first) = lines.next_told() else {
        return Err(ScriptFault::Line {
            number: lines.taken + 1,
        });
    };
    let Some(opening) = opening_of(first) else {
        return Err(ScriptFault::Line {
            number: lines.taken,
        });
    };
    Ok(Script {
        kind: opening.kind,
        shape: opening.shape,
        first_counter: opening.first_counter,
        lines: lines_of(alloc, opening.kind, &mut lines)?,
    })
}
