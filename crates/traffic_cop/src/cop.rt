//! The drops of a controller, by their numbers.
ghost use Rattle.std.specs.Prelude.{◌≡◌, ◌≤◌, ◌-◌, Some, min, IfOk};
ghost use Rattle.plant_types.specs.Store.{Keeps};
ghost use Rattle.traffic_cop.specs.Drops.{drop_named, health_at, input_after, outputs_of, IsNamed};
ghost use Rattle.traffic_cop.specs.Drops.{CanExchange};

use crate::modules::{input_total, put_all, take_all};
use plant_types::{Block, Copied, DROP_WORDS, IoDrop, List, RefStore, ScriptRow};
use std::alloc::{AllocError, Global};
use std::marker::Model;

/// Whether a drop answered at an exchange. This project's own.
#[derive(Clone, Copy, Debug, PartialEq, Eq)]
pub enum Health {
    Present,
    /// Its script row is `X`, and nothing changed.
    Silent,
}

/// The drops of a controller: what the field gives them, and what they give it.
#[derive(Drop)]
pub struct Cop {
    pub(crate) drops: List<IoDrop>,
}

impl Model for Cop {
    ghost use Rattle.std.specs.Prelude.{List};
    ghost use Rattle.plant_types.specs.declared.drops.IoDrop.{IoDrop};

    ghost Value = { List IoDrop };

    ghost view = { λ c. c.drops };
}

/// Where the row of an exchange stands: the last one is for all later exchanges.
fn row_place(k: u32, rows: usize) -> usize
    ensures { result ≡ min k rows - 1 }
{
    (k as usize).min(rows).saturating_sub(1)
}

impl Cop {
    /// Keeps a copy of the drops.
    pub fn new(alloc: Global, drops: &[IoDrop]) -> Result<Cop, AllocError>
        ensures { IfOk result (λ cop. cop ≡ drops.now) }
    {
        let mut kept = List::new(alloc);
        for drop in drops {
            kept.push(drop.copied(alloc)?)?;
        }
        Ok(Cop { drops: kept })
    }

    /// The first drop of a number.
    fn drop_of(&self, number: u8) -> &IoDrop
        requires { IsNamed self.now number }
        ensures { Some result.now ≡ drop_named self.now number }
    {
        for drop in self.drops.as_slice() {
            if drop.number == number {
                return drop;
            }
        }
        unreachable!()
    }

    /// The exchange of that number, counted from 1, of a drop that is there: its input modules take
    /// the words of its script row, or of the last one. Takes no memory.
    pub fn input<R: RefStore>(&self, drop: u8, k: u32, ram: &mut R) -> Health
        requires ready { CanExchange self.now drop (R.contents ram.old) }
        requires exchange { 1 ≤ k }
        ensures health { result ≡ health_at self.now drop k }
        ensures stored { R.contents ram.new ≡ input_after self.now drop k (R.contents ram.old) }
        ensures keeps { Keeps (R.contents ram.old) (R.contents ram.new) }
    {
        let found = self.drop_of(drop);
        let modules = found.modules.as_slice();
        let script = found.script.as_slice();
        match script.get(row_place(k, script.len())) {
            None => {
                let zeros = [0; DROP_WORDS];
                put_all(ram, modules, &zeros[..input_total(modules)]);
            }
            Some(ScriptRow::Silent) => return Health::Silent,
            Some(ScriptRow::Row(words)) => put_all(ram, modules, words.words()),
        }
        Health::Present
    }

    /// The output words of a drop that is there, in the order of its modules. Takes no memory.
    pub fn output<R: RefStore>(&self, drop: u8, ram: &R) -> Block
        requires { CanExchange self.now drop (R.contents ram.now) }
        ensures { result ≡ outputs_of self.now drop (R.contents ram.now) }
    {
        let mut words = [0; DROP_WORDS];
        let count = take_all(ram, self.drop_of(drop).modules.as_slice(), &mut words);
        Block::of(&words[..count])
    }
}
