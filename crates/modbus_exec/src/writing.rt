//! Replies to requests that write, found before anything is written.
ghost use Rattle.std.specs.Prelude.{◌≡◌, ◌+◌, ◌≤◌, length, IfOk};
ghost use Rattle.modbus_pdu.specs.Quantities.{most_coils_written, most_registers_written};
ghost use Rattle.modbus_pdu.specs.Quantities.{most_registers_read, most_registers_exchanged};
ghost use Rattle.modbus_exec.specs.Executing.{Replies, word_after, words_after};
ghost use Rattle.modbus_exec.specs.Runs.{reference_at, HasReferences};

use crate::end::ExecEnd;
use crate::runs::{are_in_map, is_in_map, reference_behind};
use modbus_pdu::{ILLEGAL_ADDRESS, Reply, Request};
use plant_types::{List, RefKind, RefStore, Words};
use std::alloc::{AllocError, Global};

/// The reply to a write of one coil.
pub(crate) fn write_coil<R: RefStore>(ram: &R, address: u16, on: bool) -> Result<Reply, ExecEnd>
    ensures { Replies (Request.WriteCoil address on) (R.contents ram.now) result }
{
    if !is_in_map(ram, RefKind::Coil, address) {
        return Err(ExecEnd::Exception(ILLEGAL_ADDRESS));
    }
    Ok(Reply::Same(Request::WriteCoil { address, on }))
}

/// The reply to a write of one register.
pub(crate) fn write_register<R: RefStore>(
    ram: &R,
    address: u16,
    value: u16,
) -> Result<Reply, ExecEnd>
    ensures { Replies (Request.WriteRegister address value) (R.contents ram.now) result }
{
    if !is_in_map(ram, RefKind::Register, address) {
        return Err(ExecEnd::Exception(ILLEGAL_ADDRESS));
    }
    Ok(Reply::Same(Request::WriteRegister { address, value }))
}

/// The reply to a write of one register by masks.
pub(crate) fn write_mask<R: RefStore>(
    ram: &R,
    address: u16,
    and_mask: u16,
    or_mask: u16,
) -> Result<Reply, ExecEnd>
    ensures { Replies (Request.Mask address and_mask or_mask) (R.contents ram.now) result }
{
    if !is_in_map(ram, RefKind::Register, address) {
        return Err(ExecEnd::Exception(ILLEGAL_ADDRESS));
    }
    Ok(Reply::Same(Request::Mask {
        address,
        and_mask,
        or_mask,
    }))
}

/// The reply to a write of coils.
pub(crate) fn write_coils<R: RefStore>(
    ram: &R,
    address: u16,
    bits: &List<bool>,
) -> Result<Reply, ExecEnd>
    requires { length bits.now ≤ most_coils_written }
    ensures { Replies (Request.WriteCoils address bits.now) (R.contents ram.now) result }
{
    let count = bits.as_slice().len();
    if !are_in_map(ram, RefKind::Coil, address, count) {
        return Err(ExecEnd::Exception(ILLEGAL_ADDRESS));
    }
    Ok(Reply::Written {
        function: 15,
        address,
        quantity: count as u16,
    })
}

/// The reply to a write of registers.
pub(crate) fn write_registers<R: RefStore>(
    ram: &R,
    address: u16,
    words: &Words,
) -> Result<Reply, ExecEnd>
    requires { length words.now ≤ most_registers_written }
    ensures { Replies (Request.WriteRegisters address words.now) (R.contents ram.now) result }
{
    let count = words.words().len();
    if !are_in_map(ram, RefKind::Register, address, count) {
        return Err(ExecEnd::Exception(ILLEGAL_ADDRESS));
    }
    Ok(Reply::Written {
        function: 16,
        address,
        quantity: count as u16,
    })
}

/// The word that a register has once words are stored from an address on.
fn word_after<R: RefStore>(ram: &R, read: u16, place: usize, write: u16, words: &[u16]) -> u16
    requires { HasReferences (R.contents ram.now) (reference_at RefKind.Register read) (place + 1) }
    ensures { result ≡ word_after (R.contents ram.now) read place write words.now }
{
    let at = reference_behind(RefKind::Register, read, place);
    let from = read as usize + place;
    let to = write as usize;
    if from < to {
        return ram.word(at);
    }
    match words.get(from - to) {
        Some(word) => *word,
        None => ram.word(at),
    }
}

/// The words of so many registers once words are stored from an address on.
fn words_after<R: RefStore>(ram: &R, read: u16, found: &mut [u16], write: u16, words: &[u16])
    requires { HasReferences (R.contents ram.now) (reference_at RefKind.Register read)
        (length found.old) }
    ensures { found.new ≡
        words_after (R.contents ram.now) read (length found.old) write words.now }
{
    for (place, word) in found.iter_mut().enumerate() {
        *word = word_after(ram, read, place, write, words);
    }
}

/// The same in memory of its own.
fn read_after<R: RefStore>(
    alloc: Global,
    ram: &R,
    read: u16,
    count: usize,
    write: u16,
    words: &[u16],
) -> Result<Words, AllocError>
    requires run { HasReferences (R.contents ram.now) (reference_at RefKind.Register read) count }
    requires most { count ≤ most_registers_read }
    ensures { IfOk result (λ found.
        found ≡ words_after (R.contents ram.now) read count write words.now) }
{
    let mut found = [0; 125];
    let found = &mut found[..count];
    words_after(ram, read, found, write, words);
    Words::of(alloc, found)
}

/// The reply to a write of registers and a read after it.
pub(crate) fn read_write<R: RefStore>(
    alloc: Global,
    ram: &R,
    read: u16,
    quantity: u16,
    write: u16,
    words: &Words,
) -> Result<Reply, ExecEnd>
    requires read { quantity ≤ most_registers_read }
    requires written { length words.now ≤ most_registers_exchanged }
    ensures { Replies (Request.ReadWrite read quantity write words.now)
        (R.contents ram.now) result }
{
    let count = quantity as usize;
    let words = words.words();
    if !are_in_map(ram, RefKind::Register, read, count) {
        return Err(ExecEnd::Exception(ILLEGAL_ADDRESS));
    }
    if !are_in_map(ram, RefKind::Register, write, words.len()) {
        return Err(ExecEnd::Exception(ILLEGAL_ADDRESS));
    }
    let found = read_after(alloc, ram, read, count, write, words)?;
    Ok(Reply::Words {
        function: 23,
        words: found,
    })
}
