ghost use Rattle.std.specs.Prelude.{◌≡◌, ◌<◌, ◌≤◌, length, IfOk};
ghost use Rattle.text_rules.specs.declared.names.TheConstants.{SHORT_NAME_LIMIT};
ghost use Rattle.frame_unroller.specs.declared.unrolling.TheConstants.{FRAME_LIMIT};
ghost use Rattle.frame_unroller.specs.Times.{four_digits, wire_at, copy_at};

use device_model::Name;
use std::alloc::{AllocError, Global};

fn four_digits(time: u32) -> [u8; 4]
    requires { time < 10000 }
    ensures { result ≡ four_digits time }
{
    [
        b'0' + (time / 1000) as u8,
        b'0' + (time / 100 % 10) as u8,
        b'0' + (time / 10 % 10) as u8,
        b'0' + (time % 10) as u8,
    ]
}

/// Makes the name of a wire at a time.
pub(crate) fn wire_at(alloc: Global, time: u32, wire: &[u8]) -> Result<Name, AllocError>
    requires time { time ≤ FRAME_LIMIT }
    requires short { length wire.now ≤ SHORT_NAME_LIMIT }
    ensures { IfOk result (λ name. name ≡ wire_at time wire.now) }
{
    let mut bytes = Vec::with_capacity(alloc, wire.len() + 5)?;
    bytes.extend_from_slice(wire)?;
    bytes.push(b'@')?;
    bytes.extend_from_slice(&four_digits(time))?;
    Name::new(alloc, &bytes)
}

/// Makes the name of the copy of a part at a time.
pub(crate) fn copy_at(alloc: Global, time: u32, part: &[u8]) -> Result<Name, AllocError>
    requires time { time ≤ FRAME_LIMIT }
    requires short { length part.now ≤ SHORT_NAME_LIMIT }
    ensures { IfOk result (λ name. name ≡ copy_at time part.now) }
{
    let mut bytes = Vec::with_capacity(alloc, part.len() + 5)?;
    bytes.extend_from_slice(&four_digits(time))?;
    bytes.push(b'@')?;
    bytes.extend_from_slice(part)?;
    Name::new(alloc, &bytes)
}
