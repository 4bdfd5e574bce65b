//! Builds and notes the rows of a copy.
ghost use Rattle.std.specs.Prelude.{◌≡◌, ◌+◌, ◌≤◌, true, length, map, IfOk};
ghost use Rattle.std.specs.List.{All, list_all};
ghost use Rattle.register_words.specs.declared.sheets.Sheet.{Sheet as DeclaredSheet};
ghost use Rattle.copy_csv.specs.Rows.{IsRowOfSheet};
ghost use Rattle.name_search.specs.NameTables.{key_and_name};
ghost use Rattle.name_search.specs.Walks.{is_noted};

use crate::named_row::NamedRow;
use crate::postings::Postings;
use copy_csv::Row;
use lei_values::NoMemory;
use std::alloc::Global;
use std::sync::ledger::Ledger;
use worker_pool::Steps;

/// The keys and names of the rows of a copy of `lei`, each noted as soon as it is built. Each row is a step.
pub fn noted_rows<L: Ledger>(
    alloc: Global,
    rows: &[Row],
    postings: &mut Postings,
    steps: &mut Steps<L>,
) -> Result<Vec<NamedRow>, NoMemory>
    requires { All (IsRowOfSheet DeclaredSheet.Lei) rows.now }
    ensures names { IfOk result (λ made. made.items ≡ map key_and_name rows.now) }
    ensures noted { IfOk result (λ made. list_all (is_noted postings.new) made.items ≡ true) }
    ensures steps { steps.new ≤ steps.old + length rows.now }
    ensures steps_stay { steps.old ≤ steps.new }
{
    let mut made = Vec::with_capacity(alloc, rows.len())?;
    for row in rows {
        let named = NamedRow::of(alloc, row, steps)?;
        postings.note_of_copy(&named)?;
        made.push(named)?;
    }
    Ok(made)
}
