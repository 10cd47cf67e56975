ghost use Rattle.pm_cli.specs.steps.Streams.{IsWriting};

use crate::refusal::Stop;
use pm_io::Sink;

// Writes a text whole, and hands it on.
pub(crate) fn write_text<O: Sink>(out: &mut O, text: &[u8]) -> Result<(), Stop>
    ensures written { IsWriting text.now (O.holds out.old) (O.holds out.new) (O.faults out.old) (O.faults out.new) result }
{
    out.write(text)?;
    out.flush()?;
    Ok(())
}
