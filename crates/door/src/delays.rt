// The delay table of a program, loaded from bytes.
ghost use Rattle.held.specs.Timings.{LoadsDelays};

use delay::AnnotatedRow;
use held::{Answer, load_delays};

#[unsafe(no_mangle)]
pub extern "C" fn ripotyngue_load_delays(bytes: &[u8], rows: &mut [AnnotatedRow]) -> Answer
    ensures { LoadsDelays bytes.entry.now rows.old result rows.new }
{
    load_delays(bytes, rows)
}
