//! The answer to the bytes of a request.
ghost use Rattle.std.specs.Prelude.{◌≡◌, ◌≤◌, length, None, IfOk, OnErr};
ghost use Rattle.modbus_pdu.specs.Spelling.{reply_bytes};
ghost use Rattle.plant_types.specs.Store.{Keeps};
ghost use Rattle.modbus_exec.specs.Executing.{Answers, HasToWrite, IsPrepared, written_by};

use crate::end::ExecEnd;
use crate::executing::reply_to;
use crate::storing::store;
use modbus_pdu::{DecodeEnd, Reply, Request, decode, encode_reply};
use plant_types::{Copied, Pdu, RefStore};
use std::alloc::{AllocError, Global};

/// An answer before anything is written: its bytes, and the request that has still to write,
/// where the answer is no exception.
#[derive(Drop)]
struct Prepared {
    reply: Pdu,
    request: Option<Request>,
}

/// An exception reply, with which nothing is written.
fn refused(alloc: Global, function: u8, code: u8) -> Result<Prepared, AllocError>
    ensures reply { IfOk result (λ prepared.
        prepared.reply ≡ reply_bytes (Reply.Exception function code)) }
    ensures request { IfOk result (λ prepared. prepared.request ≡ None) }
{
    let reply = encode_reply(alloc, &Reply::Exception { function, code })?;
    Ok(Prepared {
        reply,
        request: None,
    })
}

fn prepare<R: RefStore>(alloc: Global, bytes: &[u8], ram: &R) -> Result<Prepared, AllocError>
    requires { 1 ≤ length bytes.now }
    ensures { IfOk result (λ made.
        IsPrepared bytes.now (R.contents ram.now) made.reply made.request) }
{
    let function = bytes[0];
    let request = match decode(alloc, bytes) {
        Ok(request) => request,
        Err(DecodeEnd::Exception(code)) => return refused(alloc, function, code),
        Err(DecodeEnd::NoMemory) => return Err(AllocError),
    };
    let reply = match reply_to(alloc, &request, ram) {
        Ok(reply) => reply,
        Err(ExecEnd::Exception(code)) => return refused(alloc, function, code),
        Err(ExecEnd::NoMemory) => return Err(AllocError),
    };
    let reply = encode_reply(alloc, &reply)?;
    Ok(Prepared {
        reply,
        request: Some(request),
    })
}

/// Writes what is left of an answer. No memory is taken.
fn finish<R: RefStore>(request: &Option<Request>, ram: &mut R)
    requires { HasToWrite (R.contents ram.old) request.now }
    ensures { R.contents ram.new ≡ written_by request.now (R.contents ram.old) }
{
    match request {
        Some(request) => store(request, ram),
        None => {}
    }
}

/// The bytes of the answer to a request, which is executed. Their memory is taken before anything
/// is written: an `Err` changes nothing.
pub fn answer<R: RefStore>(alloc: Global, bytes: &[u8], ram: &mut R) -> Result<Pdu, AllocError>
    requires { 1 ≤ length bytes.now }
    ensures answered { IfOk result
        (Answers bytes.now (R.contents ram.old) (R.contents ram.new)) }
    ensures keeps { Keeps (R.contents ram.old) (R.contents ram.new) }
    ensures unchanged { OnErr result (R.contents ram.new ≡ R.contents ram.old) }
{
    let prepared = prepare(alloc, bytes, ram)?;
    finish(&prepared.request, ram);
    Ok(prepared.reply)
}

/// The answer as by `answer`, with its bytes twice, for a caller that keeps one copy. The memory of
/// both is taken before anything is written.
pub fn answer_twice<R: RefStore>(
    alloc: Global,
    bytes: &[u8],
    ram: &mut R,
) -> Result<(Pdu, Pdu), AllocError>
    requires { 1 ≤ length bytes.now }
    ensures answered { IfOk result
        (λ pair. Answers bytes.now (R.contents ram.old) (R.contents ram.new) pair.0) }
    ensures same { IfOk result (λ pair. pair.1 ≡ pair.0) }
    ensures keeps { Keeps (R.contents ram.old) (R.contents ram.new) }
    ensures unchanged { OnErr result (R.contents ram.new ≡ R.contents ram.old) }
{
    let prepared = prepare(alloc, bytes, ram)?;
    let copy = prepared.reply.copied(alloc)?;
    finish(&prepared.request, ram);
    Ok((prepared.reply, copy))
}
