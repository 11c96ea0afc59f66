ghost use Rattle.diag_edge.specs.Edge.{HasCause, Puts};
ghost use Rattle.diag_edge.specs.ErrorLines.{fault_line, above_line};

use crate::{Chunk, Sink, WriteFailed, put_line};
use itoa::Buffer;

/// Writes the error line of a fault of a text: its line, 0 if it has none, its number and its name.
pub fn put_fault<O: Sink>(
    out: &mut O,
    line: u32,
    number: u32,
    name: &[u8],
) -> Result<(), WriteFailed>
    ensures text { Puts (O.got out.old) (O.got out.new) result (fault_line line number name.now) }
    ensures cause { HasCause (O.faults out.old) (O.faults out.new) result }
{
    let mut chunk = Chunk::new();
    chunk.add(out, b"error: line ")?;
    chunk.add_number(out, line)?;
    chunk.add(out, b": fault")?;
    chunk.end_line(out, &[Buffer::new().format(number).as_bytes(), name])?;
    chunk.put(out)
}

/// Writes the error line of a count of something above its limit.
pub fn put_above<O: Sink>(
    out: &mut O,
    what: &[u8],
    count: u64,
    limit: u64,
) -> Result<(), WriteFailed>
    ensures text { Puts (O.got out.old) (O.got out.new) result (above_line what.now count limit) }
    ensures cause { HasCause (O.faults out.old) (O.faults out.new) result }
{
    put_line(
        out,
        &[
            b"error:",
            what,
            Buffer::new().format(count).as_bytes(),
            b"above",
            Buffer::new().format(limit).as_bytes(),
        ],
    )
}
