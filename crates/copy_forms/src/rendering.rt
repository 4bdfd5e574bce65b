//! Rendering a row in both forms.
ghost use Rattle.std.specs.Prelude.{◌≡◌, IfOk};
ghost use Rattle.copy_forms.specs.Files.{row_renderings};

use crate::json_text::record_text;
use copy_csv::{Row, RowTexts, line_texts};
use lei_values::{NoMemory, Shared};
use std::alloc::Global;

/// The texts of a row: its line in CSV, in two parts, and its record in JSON.
pub fn row_texts(alloc: Global, row: &Row) -> Result<RowTexts, NoMemory>
    ensures { IfOk result (λ texts. texts ≡ row_renderings row.now) }
{
    let (csv, tail) = line_texts(alloc, row)?;
    let json = Shared::of(alloc, record_text(alloc, row)?.into_vec())?;
    Ok(RowTexts { csv, tail, json })
}
