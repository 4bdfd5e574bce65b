//! The keys that publications changed, in order.
ghost use Rattle.std.specs.Prelude.{◌≡◌, ◌++◌, ◌∷◌, [], true, IfOk, OnOk, map};
ghost use Rattle.std.specs.List.{All, filter};
ghost use Rattle.copy_forms.specs.Trails.{keys_in_order};
ghost use Rattle.golden_shelf.specs.Deltas.{changed_in, texts_in};
ghost use Rattle.golden_shelf.specs.Keys.{is_key_of as is_key_of, key_texts};

use crate::issue::Issue;
use crate::order::TextKey;
use copy_csv::Sheet;
use lei_records::RowKey;
use lei_values::NoMemory;
use std::alloc::Global;

/// The keys of a sheet that these publications changed, in the order of their texts, each once.
pub fn touched(alloc: Global, issues: &[Issue], sheet: Sheet) -> Result<Vec<TextKey>, NoMemory>
    ensures keys { IfOk result
        (λ keys. map texts_in keys.items ≡ keys_in_order (changed_in sheet issues.now)) }
    ensures own { IfOk result (λ keys. All (λ key. is_key_of sheet key.key ≡ true) keys.items) }
{
    let mut keys = all_touched(alloc, issues, sheet)?;
    keys.sort_unstable();
    keys.dedup();
    Ok(keys)
}

// The keys of a sheet that these publications changed, one publication after the other.
fn all_touched(alloc: Global, issues: &[Issue], sheet: Sheet) -> Result<Vec<TextKey>, NoMemory>
    ensures keys { IfOk result (λ keys. map texts_in keys.items ≡ changed_in sheet issues.now) }
    ensures own { IfOk result (λ keys. All (λ key. is_key_of sheet key.key ≡ true) keys.items) }
{
    let mut keys = Vec::new(alloc);
    for issue in issues {
        put_keys(&mut keys, issue.keys.as_slice(), sheet)?;
    }
    Ok(keys)
}

// Appends those of these keys that are of a sheet.
fn put_keys(out: &mut Vec<TextKey>, keys: &[RowKey], sheet: Sheet) -> Result<(), NoMemory>
    ensures keys { OnOk result (map texts_in out.new.items
        ≡ map texts_in out.old.items ++ map key_texts (filter (is_key_of sheet) keys.now)) }
    ensures own { OnOk result (All (λ key. is_key_of sheet key.key ≡ true) out.old.items
        → All (λ key. is_key_of sheet key.key ≡ true) out.new.items) }
{
    for key in keys {
        put_key(out, key, sheet)?;
    }
    Ok(())
}

// Appends a key if it is of a sheet.
fn put_key(out: &mut Vec<TextKey>, key: &RowKey, sheet: Sheet) -> Result<(), NoMemory>
    ensures keys { OnOk result (map texts_in out.new.items
        ≡ map texts_in out.old.items ++ map key_texts (filter (is_key_of sheet) (key.now ∷ []))) }
    ensures own { OnOk result (All (λ key. is_key_of sheet key.key ≡ true) out.old.items
        → All (λ key. is_key_of sheet key.key ≡ true) out.new.items) }
{
    if is_of(sheet, key) {
        out.push(TextKey { key: *key })?;
    }
    Ok(())
}

// Whether a key is of a sheet.
fn is_of(sheet: Sheet, key: &RowKey) -> bool
    ensures { result ≡ is_key_of sheet key.now }
{
    matches!(
        (sheet, key),
        (Sheet::Lei, RowKey::Rec(_))
            | (Sheet::Rr, RowKey::Rel(_, _, _))
            | (Sheet::Repex, RowKey::Exc(_, _))
    )
}
