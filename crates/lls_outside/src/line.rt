// Lines on a stream of faults.
ghost use Rattle.lls_outside.specs.Grown.{GrewBy};
ghost use Rattle.lls_outside.specs.Moment.{sink_at};

use lls_base::{Sink, write_all};

/// Writes a line to the standard error. A fault of it changes nothing, since there is nowhere to say it.
pub fn write_line<E: Sink>(err: &mut E, line: &[u8])
    ensures { GrewBy line.now (sink_at E.Sink err.old) (sink_at E.Sink err.new) }
{
    let _ = write_all(err, line);
}
