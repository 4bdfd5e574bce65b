//! The text of what is shown.
ghost use Rattle.std.specs.Prelude.{◌≡◌, IfOk, map};
ghost use Rattle.copy_forms.specs.Json.{json_copy};

use crate::shared::SharedRow;
use copy_csv::{Head, Row};
use copy_forms::json_rows_text;
use lei_values::{Bytes, NoMemory};
use std::alloc::Global;

/// The text in JSON of the copy with this head and these rows.
pub fn rows_text(alloc: Global, head: &Head, rows: &[SharedRow]) -> Result<Bytes, NoMemory>
    ensures { IfOk result (λ bytes. bytes ≡ json_copy head.now rows.now) }
{
    let lent = lent_rows(alloc, rows)?;
    json_rows_text(alloc, head, &lent, text_room(rows))
}

// References to the rows.
fn lent_rows<'a>(alloc: Global, rows: &'a [SharedRow]) -> Result<Vec<&'a Row>, NoMemory>
    ensures { IfOk result (λ made. map (λ row. row.now) made.items ≡ rows.now) }
{
    let mut made = Vec::with_capacity(alloc, rows.len())?;
    for row in rows {
        made.push(row.row())?;
    }
    Ok(made)
}

// An estimate of the text's size in bytes: that of the rows' texts, and as much again for the names of the fields.
fn text_room(rows: &[SharedRow]) -> usize {
    let mut room = 0_usize;
    for row in rows {
        room = room.saturating_add(row.row().joined().len());
    }
    room.saturating_mul(2)
}
