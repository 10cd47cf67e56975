ghost use Rattle.std.specs.Prelude.{◌≤◌, length, IfOk};
ghost use Rattle.pm_io.specs.declared.TheConstants.{MAX_BYTES as limit};
ghost use Rattle.pm_cli.specs.Sampling.{IsChoicesLine};
ghost use Rattle.pm_cli.specs.steps.ChoicesFile.{IsChoicesAnswer};

use crate::first_line::first_line;
use crate::refusal::{Refusal, Stop};
use pm_lists::{ListTextRefusal, NumList, put_list, read_list};
use std::alloc::{AllocError, Global};

/// Reads the choices of a file of choices.
pub(crate) fn read_choices(alloc: Global, bytes: &[u8]) -> Result<NumList, Stop>
    requires { length bytes.now ≤ limit }
    ensures { IsChoicesAnswer bytes.now result }
{
    let Some(line) = first_line(bytes) else {
        return Err(Stop::Refused(Refusal::Text { line: 1 }));
    };
    match read_list(alloc, b"choices", line.text) {
        Ok(choices) => {
            if line.is_alone {
                Ok(choices)
            } else {
                Err(Stop::Refused(Refusal::Text { line: 2 }))
            }
        }
        Err(ListTextRefusal::Memory) => Err(Stop::Memory),
        Err(ListTextRefusal::Text) => Err(Stop::Refused(Refusal::Text { line: 1 })),
    }
}

// The file of choices that spells these.
pub(crate) fn choices_text(alloc: Global, choices: &NumList) -> Result<Vec<u8>, AllocError>
    ensures { IfOk result (λ text. IsChoicesLine choices.now text.items) }
{
    let mut text = Vec::new(alloc);
    put_list(alloc, b"choices", choices, &mut text)?;
    Ok(text)
}
