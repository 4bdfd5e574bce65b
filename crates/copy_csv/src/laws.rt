//! What readers of the crate `csv` find in copies and deltas.
ghost use Rattle.std.specs.Prelude.{◌≡◌, ◌<◌, ◌∷◌, [], Bool, List as Items, length, map};
ghost use Rattle.std.specs.List.{All};
ghost use Rattle.lei_code.specs.Texts.{Text};
ghost use Rattle.register_words.specs.declared.sheets.Sheet.{Sheet};
ghost use Rattle.copy_csv.specs.declared.rows.Change.{Change};
ghost use Rattle.copy_csv.specs.Csv.{change_fields, csv_copy, csv_delta, csv_line, delta_names};
ghost use Rattle.copy_csv.specs.Records.{records_read};
ghost use Rattle.copy_csv.specs.Rows.{IsRowOfSheet};
ghost use Rattle.copy_csv.specs.Sheets.{SheetRow, names_shown, shown_texts};

/// What a reader of the crate `csv` with its default configuration finds. In a line, its fields. In a copy, the names,
/// and for each row the texts that the copy has of it. In a delta, the names, and for each change its fields.
pub fn csv_readers_see_each_row()
    ensures lines { (fields : Items Text) → 0 < length fields → records_read (csv_line fields) ≡ fields ∷ [] }
    ensures copies { (sheet : Sheet) (wide : Bool) (rows : Items SheetRow) → All (IsRowOfSheet sheet) rows
        → records_read (csv_copy sheet wide rows) ≡ names_shown wide sheet ∷ map (shown_texts wide) rows }
    ensures deltas { (sheet : Sheet) (wide : Bool) (changes : Items Change)
        → records_read (csv_delta sheet wide changes)
        ≡ delta_names wide sheet ∷ map (change_fields wide) changes }
{}
