//! Names of entities.
ghost use Rattle.std.specs.Prelude.{◌≡◌, ◌≤◌, map, option_map, IfOk};
ghost use Rattle.std.specs.List.{All};
ghost use Rattle.lei_records.specs.Rows.{text_at};
ghost use Rattle.register_words.specs.declared.sheets.Sheet.{Sheet as DeclaredSheet};
ghost use Rattle.copy_csv.specs.Rows.{AreRows, IsRowOfSheet};
ghost use Rattle.group_reports.specs.Links as spec;
ghost use Rattle.group_reports.specs.Named.{AreNamed};
ghost use Rattle.group_reports.specs.Reports.{name_under, or_hyphen as spec_or_hyphen};

use crate::finding::find;
use copy_csv::{Row, Sheet, Texts};
use lei_values::NoMemory;
use std::alloc::Global;
use std::marker::Model;

/// The LEI and the name of each row of `lei`. Contracts see the list of them.
#[derive(Drop)]
pub struct Names {
    leis: Texts,
    texts: Texts,
}

impl Model for Names {
    ghost use Rattle.std.specs.Prelude.{List, zip};
    ghost use Rattle.group_reports.specs.Links.{Name};
    ghost use Rattle.group_reports.specs.Named.{AreNamed};

    ghost Value = { List Name };

    ghost view = { λ names. zip names.leis names.texts };

    ghost invariant = { λ names. AreNamed names.leis names.texts };
}

impl Names {
    /// The names of rows of `lei`.
    pub fn of(alloc: Global, rows: &[Row]) -> Result<Self, NoMemory>
        requires { AreRows DeclaredSheet.Lei rows.now }
        ensures { IfOk result (λ names. names ≡ map spec.key_and_name rows.now) }
    {
        let leis = texts_of(alloc, rows, 1)?;
        let texts = texts_of(alloc, rows, 2)?;
        Ok(Names { leis, texts })
    }

    /// The name in the row of an entity, if it has a row.
    pub fn name_at(&self, lei: &str) -> Option<&str>
        ensures { option_map (λ name. name.now) result ≡ spec.name_at self.now lei.now }
    {
        let Some(place) = find(&self.leis, lei) else {
            return None;
        };
        let is_there = place < self.texts.len();
        prove!(is_there);
        Some(self.texts.text(place + 1))
    }

    /// The name of an entity, or a hyphen if there is none.
    pub fn or_hyphen(&self, lei: &str) -> &str
        ensures { result.now ≡ spec_or_hyphen (name_under self.now lei.now) }
    {
        let Some(name) = self.name_at(lei) else {
            return "-";
        };
        if name.is_empty() {
            return "-";
        }
        name
    }
}

// The texts at one position of the rows of `lei`.
fn texts_of(alloc: Global, rows: &[Row], place: usize) -> Result<Texts, NoMemory>
    requires rows { All (IsRowOfSheet DeclaredSheet.Lei) rows.now }
    requires first { 1 ≤ place }
    requires last { place ≤ 2 }
    ensures { IfOk result (λ texts. texts ≡ map (λ row. text_at row.texts place) rows.now) }
{
    let mut texts = Texts::new(alloc);
    for row in rows {
        let is_record = row.sheet() == Sheet::Lei;
        prove!(is_record);
        texts.push(row.text(place))?;
    }
    Ok(texts)
}

/// An LEI, or a hyphen if there is none.
pub fn or_hyphen<'a>(lei: Option<&'a str>) -> &'a str
    ensures { result.now ≡ spec_or_hyphen (option_map (λ lei. lei.now) lei.entry) }
{
    match lei {
        Some(lei) => lei,
        None => "-",
    }
}
