//! Requests that read.
ghost use Rattle.std.specs.Prelude.{◌≡◌, ◌≤◌, IfOk};
ghost use Rattle.plant_types.specs.Reference.{is_discrete};
ghost use Rattle.modbus_pdu.specs.Steps.{most_read, read_request, reading_function};
ghost use Rattle.modbus_exec.specs.Answer.{reply_by};
ghost use Rattle.modbus_exec.specs.Executing.{Replies};
ghost use Rattle.modbus_exec.specs.Runs.{reference_at, HasReferences};

use crate::end::ExecEnd;
use crate::runs::{are_in_map, read_bits, read_run};
use modbus_pdu::{ILLEGAL_ADDRESS, Reply};
use plant_types::{RefKind, RefStore};
use std::alloc::{AllocError, Global};

fn is_discrete(kind: RefKind) -> bool
    ensures { result ≡ is_discrete kind }
{
    matches!(kind, RefKind::Coil | RefKind::Input)
}

/// The function that reads references of a kind.
fn reading_function(kind: RefKind) -> u8
    ensures { result ≡ reading_function kind }
{
    match kind {
        RefKind::Coil => 1,
        RefKind::Input => 2,
        RefKind::Register => 3,
        RefKind::InputRegister => 4,
    }
}

fn reply_of<R: RefStore>(
    alloc: Global,
    ram: &R,
    kind: RefKind,
    address: u16,
    count: usize,
) -> Result<Reply, AllocError>
    requires run { HasReferences (R.contents ram.now) (reference_at kind address) count }
    requires most { count ≤ most_read kind }
    ensures { IfOk result (λ reply.
        reply ≡ reply_by (read_request kind address count) (R.contents ram.now)) }
{
    let function = reading_function(kind);
    if is_discrete(kind) {
        let bits = read_bits(alloc, ram, kind, address, count)?;
        return Ok(Reply::Bits { function, bits });
    }
    let words = read_run(alloc, ram, kind, address, count)?;
    Ok(Reply::Words { function, words })
}

/// The reply to a read of references of a kind.
pub(crate) fn read<R: RefStore>(
    alloc: Global,
    ram: &R,
    kind: RefKind,
    address: u16,
    quantity: u16,
) -> Result<Reply, ExecEnd>
    requires { quantity ≤ most_read kind }
    ensures { Replies (read_request kind address quantity) (R.contents ram.now) result }
{
    let count = quantity as usize;
    if !are_in_map(ram, kind, address, count) {
        return Err(ExecEnd::Exception(ILLEGAL_ADDRESS));
    }
    let reply = reply_of(alloc, ram, kind, address, count)?;
    Ok(reply)
}
