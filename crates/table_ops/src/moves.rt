//! R>T, T>R, T>T and BLKM.
ghost use Rattle.std.specs.Prelude.{◌≡◌, ◌≤◌, ◌<◌, ◌+◌, ◌^◌};
ghost use Rattle.plant_types.specs.Reference.{ref_from};
ghost use Rattle.plant_types.specs.declared.element.Element.{Element};
ghost use Rattle.plant_types.specs.declared.element.MoveOp.{MoveOp};
ghost use Rattle.plant_types.specs.Effect.{Acts};
ghost use Rattle.plant_types.specs.Operands.{HasOperands};
ghost use Rattle.plant_types.specs.Power.{bits_of};
ghost use Rattle.plant_types.specs.Slots.{table_limit};
ghost use Rattle.plant_types.specs.Store.{HasRegisters, Keeps, word_at};
ghost use Rattle.table_ops.specs.Tables.{moved, table_behind, start_place, move_outputs};
ghost use Rattle.table_ops.specs.Tables.{with_next_place};
ghost use Rattle.table_ops.specs.Tables.{reg_to_table_effect, table_to_reg_effect};
ghost use Rattle.table_ops.specs.Tables.{table_to_table_effect, block_move_effect};

use plant_types::{NodePower, Ref, RefStore, TABLE_LIMIT, load_words, ref_after, store_words};

/// Copies registers; all are read before any is stored.
pub(crate) fn move_words<R: RefStore>(ram: &mut R, source: Ref, target: Ref, count: u16)
    requires size { count ≤ table_limit }
    requires source { HasRegisters (R.contents ram.old) source count }
    requires target { HasRegisters (R.contents ram.old) target count }
    ensures stored { R.contents ram.new ≡ moved (R.contents ram.old) source target count }
    ensures keeps { Keeps (R.contents ram.old) (R.contents ram.new) }
{
    let mut words = [0; TABLE_LIMIT as usize];
    let run = &mut words[..usize::from(count)];
    load_words(ram, source, run);
    store_words(ram, target, run);
}

/// Copies one register.
pub(crate) fn move_word<R: RefStore>(ram: &mut R, source: Ref, target: Ref)
    requires source { HasRegisters (R.contents ram.old) source 1 }
    requires target { HasRegisters (R.contents ram.old) target 1 }
    ensures stored { R.contents ram.new ≡ moved (R.contents ram.old) source target 1 }
    ensures keeps { Keeps (R.contents ram.old) (R.contents ram.new) }
{
    let word = ram.word(source);
    ram.set_word(target, word);
}

/// The register at a place of the table behind a pointer.
pub(crate) fn register_behind(pointer: Ref, place: u16) -> Ref
    requires { pointer.number + 1 + place < 2 ^ 16 }
    ensures { result ≡ ref_from (table_behind pointer) place }
{
    ref_after(ref_after(pointer, 1), place)
}

/// The place in its table where a move begins.
fn place_at_start<R: RefStore>(nodes: NodePower, pointer: Ref, ram: &R) -> u16
    requires { HasRegisters (R.contents ram.now) pointer 1 }
    ensures { result ≡ start_place nodes (word_at (R.contents ram.now) pointer) }
{
    if nodes.bottom { 0 } else { ram.word(pointer) }
}

/// Stores the pointer of a move that began at a place, and answers the outputs.
fn end_move<R: RefStore>(nodes: NodePower, pointer: Ref, length: u16, place: u16, ram: &mut R) -> u8
    requires { HasRegisters (R.contents ram.old) pointer 1 }
    ensures outputs { result ≡ bits_of (move_outputs nodes length place) }
    ensures stored { R.contents ram.new ≡
        with_next_place nodes pointer length place (R.contents ram.old) }
    ensures keeps { Keeps (R.contents ram.old) (R.contents ram.new) }
{
    let goes_on = nodes.top && place < length;
    let next = if goes_on && !nodes.middle {
        place + 1
    } else {
        place
    };
    if goes_on || nodes.bottom {
        ram.set_word(pointer, next);
    }
    let outputs = NodePower {
        top: nodes.top,
        middle: next >= length,
        bottom: false,
    };
    outputs.bits()
}

/// R>T: stores the register `top` in the table of `length` registers behind the pointer `mid`.
///
/// Inputs: the top node moves, the middle one holds the pointer, the bottom one sets it to 0 first.
/// Outputs: the top node passes power on, the middle one says that the pointer is at the table's
/// end.
pub fn reg_to_table<R: RefStore>(top: Ref, mid: Ref, length: u16, inputs: u8, ram: &mut R) -> u8
    requires { HasOperands (R.contents ram.old) (Element.Move MoveOp.RegToTable top mid length) }
    ensures { Acts (reg_to_table_effect top mid length) inputs result
        (R.contents ram.old) (R.contents ram.new) }
{
    let nodes = NodePower::of_bits(inputs);
    let place = place_at_start(nodes, mid, ram);
    if nodes.top && place < length {
        move_word(ram, top, register_behind(mid, place));
    }
    end_move(nodes, mid, length, place, ram)
}

/// T>R: stores a register of the table from `top` on in the register behind the pointer `mid`.
///
/// Inputs and outputs are those of `reg_to_table`.
pub fn table_to_reg<R: RefStore>(top: Ref, mid: Ref, length: u16, inputs: u8, ram: &mut R) -> u8
    requires { HasOperands (R.contents ram.old) (Element.Move MoveOp.TableToReg top mid length) }
    ensures { Acts (table_to_reg_effect top mid length) inputs result
        (R.contents ram.old) (R.contents ram.new) }
{
    let nodes = NodePower::of_bits(inputs);
    let place = place_at_start(nodes, mid, ram);
    if nodes.top && place < length {
        move_word(ram, ref_after(top, place), ref_after(mid, 1));
    }
    end_move(nodes, mid, length, place, ram)
}

/// T>T: stores a register of the table from `top` on in the same place behind the pointer `mid`.
///
/// Inputs and outputs are those of `reg_to_table`.
pub fn table_to_table<R: RefStore>(top: Ref, mid: Ref, length: u16, inputs: u8, ram: &mut R) -> u8
    requires { HasOperands (R.contents ram.old) (Element.Move MoveOp.TableToTable top mid length) }
    ensures { Acts (table_to_table_effect top mid length) inputs result
        (R.contents ram.old) (R.contents ram.new) }
{
    let nodes = NodePower::of_bits(inputs);
    let place = place_at_start(nodes, mid, ram);
    if nodes.top && place < length {
        move_word(ram, ref_after(top, place), register_behind(mid, place));
    }
    end_move(nodes, mid, length, place, ram)
}

/// BLKM: copies the table of `length` registers from `top` on to `mid`.
///
/// Input: the top node moves. Output: the top node passes power on.
pub fn block_move<R: RefStore>(top: Ref, mid: Ref, length: u16, inputs: u8, ram: &mut R) -> u8
    requires { HasOperands (R.contents ram.old) (Element.Move MoveOp.Copy top mid length) }
    ensures { Acts (block_move_effect top mid length) inputs result
        (R.contents ram.old) (R.contents ram.new) }
{
    let power = NodePower::of_bits(inputs).top;
    if power {
        move_words(ram, top, mid, length);
    }
    let outputs = NodePower {
        top: power,
        middle: false,
        bottom: false,
    };
    outputs.bits()
}
