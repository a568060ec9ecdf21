// Slices written whole.
ghost use Rattle.std.specs.Prelude.{◌≡◌, ◌≤◌, true, vec_len, IfOk, IsErrOf};
ghost use Rattle.std.specs.Io.KnownBytes.{Consumes, IsAtEnd};
ghost use Rattle.mv_desk.specs.View.{Rose};
ghost use Rattle.mv_desk.specs.Calls.{Reads, Writes};

use crate::{Desk, Failed, ReadFault, Slot, WriteFault};
use std::alloc::Global;

// How many bytes a read asks for.
const ROOM: usize = 4096;

/// What is left in a slot, to its end or up to a byte past the limit at least.
pub fn read_front<D: Desk>(
    alloc: Global,
    desk: &mut D,
    slot: Slot,
    limit: u64,
) -> Result<Vec<u8>, ReadFault>
    requires { (D.seen desk.old).reads slot ≡ true }
    ensures front { IfOk result
        (λ bytes. Consumes ((D.seen desk.old).left slot) ((D.seen desk.new).left slot) bytes.items) }
    ensures end { IfOk result
        (λ bytes. vec_len bytes ≤ limit → IsAtEnd ((D.seen desk.new).left slot)) }
    ensures fault { IsErrOf result ReadFault.Fault
        → Rose (D.seen desk.old).read_faults (D.seen desk.new).read_faults }
    ensures reads { Reads slot (D.seen desk.old) (D.seen desk.new) result }
{
    let mut bytes = Vec::new(alloc);
    let mut buffer = [0u8; ROOM];
    while bytes.len() as u64 <= limit {
        match desk.read(slot, &mut buffer) {
            Ok(0) => return Ok(bytes),
            Ok(count) => {
                if bytes.extend_from_slice(&buffer[..count]).is_err() {
                    return Err(ReadFault::Memory);
                }
            }
            Err(Failed) => return Err(ReadFault::Fault),
        }
    }
    Ok(bytes)
}

/// Writes bytes whole, as the desk takes them. After an error a front part of them was written.
pub fn write_all<D: Desk>(desk: &mut D, slot: Slot, bytes: &[u8]) -> Result<(), WriteFault>
    requires { (D.seen desk.old).writes slot ≡ true }
    ensures { Writes slot bytes.now (D.seen desk.old) (D.seen desk.new) result }
{
    let mut rest = bytes;
    while !rest.is_empty() {
        match desk.write(slot, rest) {
            Ok(count) => rest = &rest[count..],
            Err(Failed) => return Err(WriteFault),
        }
    }
    Ok(())
}
