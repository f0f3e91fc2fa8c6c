//! What requests write.
ghost use Rattle.std.specs.Prelude.{◌≡◌, true};
ghost use Rattle.modbus_exec.specs.Answer.{has_named_references, stored_by};
ghost use Rattle.modbus_exec.specs.Runs.{reference_at, is_in_map};

use crate::runs::{reference_of, write_bits, write_words};
use modbus_pdu::Request;
use plant_types::{RefKind, RefStore};

#[tactic(auto, using(crate::proofs::RunLemmas::in_map_is))]
fn store_coil<R: RefStore>(ram: &mut R, address: u16, on: bool)
    requires { is_in_map (R.contents ram.old) (reference_at RefKind.Coil address) ≡ true }
    ensures { R.contents ram.new ≡
        stored_by (Request.WriteCoil address on) (R.contents ram.old) }
{
    ram.set_bit(reference_of(RefKind::Coil, address), on);
}

#[tactic(auto, using(crate::proofs::RunLemmas::in_map_is))]
fn store_register<R: RefStore>(ram: &mut R, address: u16, value: u16)
    requires { is_in_map (R.contents ram.old) (reference_at RefKind.Register address) ≡ true }
    ensures { R.contents ram.new ≡
        stored_by (Request.WriteRegister address value) (R.contents ram.old) }
{
    ram.set_word(reference_of(RefKind::Register, address), value);
}

#[tactic(auto, using(crate::proofs::RunLemmas::in_map_is))]
fn store_masked<R: RefStore>(ram: &mut R, address: u16, and_mask: u16, or_mask: u16)
    requires { is_in_map (R.contents ram.old) (reference_at RefKind.Register address) ≡ true }
    ensures { R.contents ram.new ≡
        stored_by (Request.Mask address and_mask or_mask) (R.contents ram.old) }
{
    let value = ram.word(reference_of(RefKind::Register, address));
    store_register(ram, address, (value & and_mask) | (or_mask & !and_mask));
}

/// Writes what a request writes. No memory is taken.
pub(crate) fn store<R: RefStore>(request: &Request, ram: &mut R)
    requires { has_named_references (R.contents ram.old) request.now ≡ true }
    ensures { R.contents ram.new ≡ stored_by request.now (R.contents ram.old) }
{
    match request {
        Request::WriteCoil { address, on } => store_coil(ram, *address, *on),
        Request::WriteRegister { address, value } => store_register(ram, *address, *value),
        Request::WriteCoils { address, bits } => write_bits(ram, *address, bits.as_slice()),
        Request::WriteRegisters { address, words } => write_words(ram, *address, words.words()),
        Request::Mask {
            address,
            and_mask,
            or_mask,
        } => store_masked(ram, *address, *and_mask, *or_mask),
        Request::ReadWrite { write, words, .. } => write_words(ram, *write, words.words()),
        _ => {}
    }
}
