//! Requests on the references of a store.
ghost use Rattle.std.specs.Prelude.{◌≡◌, IfOk, OnErr};
ghost use Rattle.modbus_pdu.specs.Spelling.{IsRequestInRange, IsReplyInRange, IsReplyTo};
ghost use Rattle.plant_types.specs.Store.{Keeps};
ghost use Rattle.modbus_exec.specs.Executing.{ComesTo, Executes, KeepsOthers, Replies};
ghost use Rattle.modbus_exec.specs.Executing.{TellsException};

use crate::end::ExecEnd;
use crate::reading::read;
use crate::storing::store;
use crate::writing::{
    read_write, write_coil, write_coils, write_mask, write_register, write_registers,
};
use modbus_pdu::{ILLEGAL_FUNCTION, Reply, Request};
use plant_types::{RefKind, RefStore};
use std::alloc::Global;

/// The reply to a request, found before anything is written.
pub(crate) fn reply_to<R: RefStore>(
    alloc: Global,
    request: &Request,
    ram: &R,
) -> Result<Reply, ExecEnd>
    requires { IsRequestInRange request.now }
    ensures { Replies request.now (R.contents ram.now) result }
{
    match request {
        Request::ReadCoils { address, quantity } => {
            read(alloc, ram, RefKind::Coil, *address, *quantity)
        }
        Request::ReadInputs { address, quantity } => {
            read(alloc, ram, RefKind::Input, *address, *quantity)
        }
        Request::ReadRegisters { address, quantity } => {
            read(alloc, ram, RefKind::Register, *address, *quantity)
        }
        Request::ReadInputRegisters { address, quantity } => {
            read(alloc, ram, RefKind::InputRegister, *address, *quantity)
        }
        Request::WriteCoil { address, on } => write_coil(ram, *address, *on),
        Request::WriteRegister { address, value } => write_register(ram, *address, *value),
        Request::Echo { word } => Ok(Reply::Same(Request::Echo { word: *word })),
        Request::Stats { .. } => Err(ExecEnd::Exception(ILLEGAL_FUNCTION)),
        Request::WriteCoils { address, bits } => write_coils(ram, *address, bits),
        Request::WriteRegisters { address, words } => write_registers(ram, *address, words),
        Request::Mask {
            address,
            and_mask,
            or_mask,
        } => write_mask(ram, *address, *and_mask, *or_mask),
        Request::ReadWrite {
            read,
            quantity,
            write,
            words,
        } => read_write(alloc, ram, *read, *quantity, *write, words),
    }
}

#[tactic(auto, using(crate::proofs::AnswerLemmas::answered_has))]
fn execute<R: RefStore>(alloc: Global, request: &Request, ram: &mut R) -> Result<Reply, ExecEnd>
    requires { IsRequestInRange request.now }
    ensures { Executes request.now (R.contents ram.old) result (R.contents ram.new) }
{
    match reply_to(alloc, request, ram) {
        Ok(reply) => {
            store(request, ram);
            Ok(reply)
        }
        Err(end) => Err(end),
    }
}

/// Does what a request asks: exception 1 for statistics, which are not asked of a map, exception 2
/// where a reference is outside the map. Without a reply nothing is changed: the reply's memory is
/// taken first.
pub fn exec<R: RefStore>(alloc: Global, request: &Request, ram: &mut R) -> Result<Reply, ExecEnd>
    requires { IsRequestInRange request.now }
    ensures answered { IfOk result
        (ComesTo request.now (R.contents ram.old) (R.contents ram.new)) }
    ensures exception { TellsException request.now (R.contents ram.old) result }
    ensures unchanged { OnErr result (R.contents ram.new ≡ R.contents ram.old) }
    ensures others { KeepsOthers request.now (R.contents ram.old) (R.contents ram.new) }
    ensures keeps { Keeps (R.contents ram.old) (R.contents ram.new) }
    ensures in_range { IfOk result IsReplyInRange }
    ensures reply { IfOk result (IsReplyTo request.now) }
{
    execute(alloc, request, ram)
}
