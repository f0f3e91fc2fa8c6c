//! The references of a panel, as its lines name them.
ghost use Rattle.std.specs.Prelude.{◌≡◌, ◌++◌, IfOk, OnOk, string_bytes};
ghost use Rattle.controller_core.specs.NotedLines.{noted_text};

use itoa::Buffer;
use plant_types::Ref;
use std::alloc::{AllocError, Global};
use std::fmt::Write;
use std::marker::Model;

/// A reference of a panel, with the text that stands before its value, which is written once for
/// all lines. This project's own.
#[derive(Drop)]
pub struct Reading {
    at: Ref,
    label: String,
}

impl Model for Reading {
    ghost use Rattle.std.specs.Prelude.{◌≡◌, string_bytes};
    ghost use Rattle.plant_types.specs.declared.reference.Ref.{Ref};
    ghost use Rattle.controller_core.specs.Panel.{label_of};

    ghost Value = { Ref };

    ghost view = { λ reading. reading.at };

    ghost invariant = { λ reading. string_bytes reading.label ≡ label_of reading.at };
}

impl Reading {
    fn of(alloc: Global, at: Ref) -> Result<Reading, AllocError>
        ensures { IfOk result (λ reading. reading ≡ at) }
    {
        let label = format!(in alloc; " {at}=")?;
        Ok(Reading { at, label })
    }

    /// Adds the reference with a value.
    pub(crate) fn push(&self, text: &mut String, value: u16) -> Result<(), AllocError>
        ensures { OnOk result (string_bytes text.new ≡ string_bytes text.old
            ++ noted_text (self.now, value)) }
    {
        text.push_str(self.label.as_str())?;
        text.push_str(Buffer::new().format(value))
    }
}

/// The references of a panel, in its order.
pub fn readings_of(alloc: Global, panel: &[Ref]) -> Result<Vec<Reading>, AllocError>
    ensures { IfOk result (λ readings. readings.items ≡ panel.now) }
{
    let mut readings = Vec::new(alloc);
    for at in panel {
        readings.push(Reading::of(alloc, *at)?)?;
    }
    Ok(readings)
}
