//! Items that several holders share, with their JSON records, and the rows of such items.
ghost use Rattle.std.specs.Prelude.{◌≡◌, IfOk};
ghost use Rattle.copy_forms.specs.Files.{row_renderings};
ghost use Rattle.copy_forms.specs.Items.{item_text, sheet_row};

use crate::items::{item_row, item_text};
use copy_csv::{RowTexts, line_texts};
use lei_records::Item;
use lei_values::{NoMemory, Shared};
use std::alloc::Global;
use std::marker::Model;
use std::sync::Arc;

// An item, and its JSON record if that was printed. Contracts see the item.
#[derive(Debug, Drop)]
struct Printed {
    item: Item,
    text: Option<Shared>,
}

impl Model for Printed {
    ghost use Rattle.std.specs.Prelude.{◌≡◌, IfSome};
    ghost use Rattle.lei_records.specs.declared.item.Item.{Item};
    ghost use Rattle.copy_forms.specs.Items.{item_text};

    ghost Value = { Item };

    ghost view = { λ printed. printed.item };

    ghost invariant = { λ printed. IfSome printed.text (λ text. text ≡ item_text printed.item) };
}

impl Printed {
    // The item's JSON record. If it was printed before, no memory is allocated.
    fn text(&self, alloc: Global) -> Result<Shared, NoMemory>
        ensures { IfOk result (λ text. text ≡ item_text self.now) }
    {
        match &self.text {
            Some(text) => text.share(),
            None => printed_text(alloc, &self.item),
        }
    }
}

// The JSON record of an item, printed for several holders.
fn printed_text(alloc: Global, item: &Item) -> Result<Shared, NoMemory>
    ensures { IfOk result (λ text. text ≡ item_text item.now) }
{
    Shared::of(alloc, item_text(alloc, item)?.into_vec())
}

/// An item that its holders share, with its JSON record if that was printed. One more holder needs no memory for them.
/// Contracts see the item.
#[derive(Debug, Drop)]
pub struct SharedItem {
    held: Arc<Printed, Global>,
}

impl Model for SharedItem {
    ghost use Rattle.std.specs.Arc.{arc_value};
    ghost use Rattle.lei_records.specs.declared.item.Item.{Item};

    ghost Value = { Item };

    ghost view = { λ shared. arc_value shared.held };
}

impl SharedItem {
    /// The item, which is moved. Its record isn't printed.
    pub fn of(alloc: Global, item: Item) -> Result<Self, NoMemory>
        ensures { IfOk result (λ shared. shared ≡ item) }
    {
        let printed = Printed { item, text: None };
        Ok(SharedItem {
            held: Arc::new(alloc, printed)?,
        })
    }

    /// The item, which is moved, with its record printed.
    pub fn printed(alloc: Global, item: Item) -> Result<Self, NoMemory>
        ensures { IfOk result (λ shared. shared ≡ item) }
    {
        let text = Some(printed_text(alloc, &item)?);
        let printed = Printed { item, text };
        Ok(SharedItem {
            held: Arc::new(alloc, printed)?,
        })
    }

    /// The item.
    pub fn item(&self) -> &Item
        ensures { result.now ≡ self.now }
    {
        &self.held.item
    }

    /// The item's JSON record. If it was printed before, no memory is allocated.
    pub fn text(&self, alloc: Global) -> Result<Shared, NoMemory>
        ensures { IfOk result (λ text. text ≡ item_text self.now) }
    {
        self.held.text(alloc)
    }

    /// The same item for one more holder.
    pub fn share(&self) -> Result<Self, NoMemory>
        ensures { IfOk result (λ shared. shared ≡ self.now) }
    {
        Ok(SharedItem {
            held: Arc::try_clone(&self.held)?,
        })
    }
}

/// The row of an item that is shared. Contracts see the row.
#[derive(Debug, Drop)]
pub struct ItemRow {
    item: SharedItem,
}

impl Model for ItemRow {
    ghost use Rattle.copy_csv.specs.Sheets.{SheetRow};
    ghost use Rattle.copy_forms.specs.Items.{sheet_row};

    ghost Value = { SheetRow };

    ghost view = { λ row. sheet_row row.item };
}

impl ItemRow {
    /// The row of this item.
    pub fn of(item: SharedItem) -> Self
        ensures { result ≡ sheet_row item }
    {
        ItemRow { item }
    }

    /// The texts of the row: its line in CSV, in two parts, and its record in JSON. If the record was printed before,
    /// it is shared.
    pub fn texts(&self, alloc: Global) -> Result<RowTexts, NoMemory>
        ensures { IfOk result (λ texts. texts ≡ row_renderings self.now) }
    {
        let row = item_row(alloc, self.item.item())?;
        let (csv, tail) = line_texts(alloc, &row)?;
        let json = self.item.text(alloc)?;
        Ok(RowTexts { csv, tail, json })
    }
}
