//! The rows of scripts as sets.
ghost use Rattle.std.specs.Prelude.{◌≡◌, ◌↔◌, true, IfOk, IsTrue, OnOk};
ghost use Rattle.side_runs.specs.Beside.{HasRowsOf};
ghost use Rattle.field_pair.specs.Rows.{row_key, HoldsRows};

use indexmap::IndexSet;
use plant_types::ScriptRow;
use std::alloc::{AllocError, Global};

/// Writes words that tell a row from each other one.
fn write_key(key: &mut Vec<u16>, row: &ScriptRow) -> Result<(), AllocError>
    ensures { OnOk result (key.new.items ≡ row_key row.now) }
{
    key.clear();
    match row {
        ScriptRow::Silent => Ok(()),
        ScriptRow::Row(words) => {
            key.push(1)?;
            key.extend_from_slice(words.words())
        }
    }
}

/// The rows of a script, each once.
fn rows_of(alloc: Global, script: &[ScriptRow]) -> Result<IndexSet<Vec<u16>>, AllocError>
    ensures { IfOk result (λ rows. HoldsRows rows.keys script.now) }
{
    let mut rows = IndexSet::new(alloc);
    for row in script {
        let mut key = Vec::new(alloc);
        write_key(&mut key, row)?;
        rows.insert(key)?;
    }
    Ok(rows)
}

/// Whether each row of a script is one of another. Takes time in proportion to both.
pub(crate) fn has_rows_of(
    alloc: Global,
    script: &[ScriptRow],
    other: &[ScriptRow],
) -> Result<bool, AllocError>
    ensures { IfOk result (λ has. IsTrue has ↔ HasRowsOf script.now other.now) }
{
    let rows = rows_of(alloc, other)?;
    let mut key = Vec::new(alloc);
    for row in script {
        write_key(&mut key, row)?;
        if !rows.contains(key.as_slice()) {
            return Ok(false);
        }
    }
    Ok(true)
}
