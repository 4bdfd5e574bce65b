//! The cells that items name.
ghost use Rattle.std.specs.Prelude.{◌≡◌, ◌++◌, ◌∷◌, [], flat_map, map, option_map, IfOk, OnOk};
ghost use Rattle.lei_records.specs.declared.view.CellKey.{CellKey as Key};
ghost use Rattle.lei_records.specs.Relations.{end_in, kind_in, start_in};
ghost use Rattle.relation_rules.specs.Needs.{exception_keys, exception_names, relation_names};
ghost use Rattle.cell_reads.specs.Needs;
ghost use Rattle.cell_reads.specs.Needs.{key_names, named_cells};

use authority_rules::key_of;
use lei_code::Lei;
use lei_records::{CellKey, ExceptionItem, Item, Readied, Record, Relation};
use lei_shapes::ExceptionCategory;
use lei_values::{NoMemory, Text};
use relation_rules::{parent_category, parent_type};
use std::alloc::Global;

/// The keys of the cells that items name, item by item.
pub fn keys_of(alloc: Global, items: &[Readied]) -> Result<Vec<CellKey>, NoMemory>
    ensures { IfOk result (λ keys. keys.items ≡ flat_map named_cells items.now) }
{
    let mut keys = Vec::new(alloc);
    for item in items {
        push_names(alloc, &mut keys, item)?;
    }
    Ok(keys)
}

/// Appends the keys of the cells that an item names.
pub fn push_names(alloc: Global, keys: &mut Vec<CellKey>, item: &Readied) -> Result<(), NoMemory>
    ensures { OnOk result (keys.new.items ≡ keys.old.items ++ named_cells item.now) }
{
    match item {
        Readied::Bad(_) => Ok(()),
        Readied::Good(Item::Record(item)) => push_record_names(alloc, keys, item),
        Readied::Good(Item::Relation(item)) => push_relation_names(keys, item),
        Readied::Good(Item::Exception(item)) => push_exception_names(keys, item),
    }
}

fn push_record_names(alloc: Global, keys: &mut Vec<CellKey>, item: &Record) -> Result<(), NoMemory>
    ensures { OnOk result (keys.new.items ≡ keys.old.items ++ Needs.record_names item.now) }
{
    keys.push(CellKey::Rec(item.lei()))?;
    push_key(alloc, keys, key_of(item))?;
    push_records(keys, item.successors().as_slice())
}

fn push_key(
    alloc: Global,
    keys: &mut Vec<CellKey>,
    key: Option<(&str, &str)>,
) -> Result<(), NoMemory>
    ensures { OnOk result (keys.new.items
        ≡ keys.old.items ++ key_names (option_map (λ k. (k.0.now, k.1.now)) key.entry)) }
{
    if let Some((authority, id)) = key {
        let key = CellKey::Key(Text::copy_of(alloc, authority)?, Text::copy_of(alloc, id)?);
        keys.push(key)?;
    }
    Ok(())
}

// Appends the keys of these records.
fn push_records(keys: &mut Vec<CellKey>, leis: &[Lei]) -> Result<(), NoMemory>
    ensures { OnOk result (keys.new.items ≡ keys.old.items ++ map Key.Rec leis.now) }
{
    for lei in leis {
        keys.push(CellKey::Rec(*lei))?;
    }
    Ok(())
}

fn push_relation_names(keys: &mut Vec<CellKey>, item: &Relation) -> Result<(), NoMemory>
    ensures { OnOk result (keys.new.items ≡ keys.old.items ++ relation_names item.now) }
{
    push_ends(keys, item)?;
    push_stand_in(keys, item.start(), parent_category(item.kind()))
}

// Appends four keys: the records of the start and the end, the relationship itself, and the active relationship with
// its start and type.
fn push_ends(keys: &mut Vec<CellKey>, item: &Relation) -> Result<(), NoMemory>
    ensures { let start = start_in item.now in let end = end_in item.now in let kind = kind_in item.now in
        OnOk result (keys.new.items ≡ keys.old.items
        ++ (Key.Rec start ∷ Key.Rec end ∷ Key.Rel start kind end ∷ Key.Act start kind ∷ [])) }
{
    keys.push(CellKey::Rec(item.start()))?;
    keys.push(CellKey::Rec(item.end()))?;
    keys.push(CellKey::Rel(item.start(), item.kind(), item.end()))?;
    keys.push(CellKey::Act(item.start(), item.kind()))?;
    Ok(())
}

// Appends the key of the exception that would replace such a parent, if there is a category for it.
fn push_stand_in(
    keys: &mut Vec<CellKey>,
    start: Lei,
    category: Option<ExceptionCategory>,
) -> Result<(), NoMemory>
    ensures { OnOk result (keys.new.items ≡ keys.old.items ++ exception_keys start category) }
{
    if let Some(category) = category {
        keys.push(CellKey::Exc(start, category))?;
    }
    Ok(())
}

fn push_exception_names(keys: &mut Vec<CellKey>, item: &ExceptionItem) -> Result<(), NoMemory>
    ensures { OnOk result (keys.new.items ≡ keys.old.items ++ exception_names item.now.0) }
{
    keys.push(CellKey::Rec(item.lei()))?;
    keys.push(CellKey::Exc(item.lei(), item.category()))?;
    keys.push(CellKey::Act(item.lei(), parent_type(item.category())))?;
    Ok(())
}
