//! Laws of the definitions, each as the contract of a function that does nothing.
ghost use Rattle.std.specs.Prelude.{◌≡◌, ◌≤◌, ◌<◌, ◌^◌, Bool, List, length};
ghost use Rattle.std.specs.Cmp.Lexicographic.{slice_cmp};
ghost use Rattle.std.specs.Ordering.{nat_cmp};
ghost use Rattle.std.specs.List.Sorted.{IsStrictlySortedBy};
ghost use Rattle.lei_code.specs.Texts.{Text};
ghost use Rattle.copy_csv.specs.declared.heads.Head.{Head};
ghost use Rattle.copy_csv.specs.declared.rows.Change.{Change};
ghost use Rattle.register_words.specs.declared.sheets.Form.{Form};
ghost use Rattle.register_words.specs.declared.sheets.Sheet.{Sheet};
ghost use Rattle.copy_forms.specs.Json.{json_names};
ghost use Rattle.copy_csv.specs.Csv.{IsCsvCopy, IsCsvDelta};
ghost use Rattle.copy_forms.specs.Files.{IsCopy, IsDelta};
ghost use Rattle.copy_csv.specs.Sheets.{SheetRow};
ghost use Rattle.copy_forms.specs.Trails.{DeltasLeadOn, DeltasLeadOnFromBetween, IsSoundTrail, Trail};

/// In every sound trail of at most 1,000,000 publications, take a copy and the delta from it to the same or a later
/// publication. The copy patched by the delta is that publication's copy, byte for byte, in both forms and for each
/// sheet. The delta may be empty, have a row that changed back, or drop a key that the copy lacks. It may also lead
/// from a narrow publication to a wide one.
pub fn deltas_lead_from_copy_to_copy()
    ensures { (trail : Trail) → IsSoundTrail trail → length trail ≤ 1_000_000 → DeltasLeadOn trail }
{}

/// In every sound trail of at most 1,000,000 publications, take a copy. Take also a delta from the same or an earlier
/// publication to the same or a later one. The copy patched by the delta is the copy of the publication that the delta
/// leads to. This holds byte for byte, in both forms and for each sheet.
pub fn deltas_lead_on_from_between()
    ensures { (trail : Trail) → IsSoundTrail trail → length trail ≤ 1_000_000
        → DeltasLeadOnFromBetween trail }
{}

/// In CSV, copies of a sheet have different texts if their widths or their rows differ. So have deltas if their widths
/// or their changes differ.
pub fn csv_tells_its_rows()
    ensures copies { (sheet : Sheet) (bytes : Text) (wide other : Bool) (rows others : List SheetRow)
        → IsCsvCopy sheet bytes wide rows → IsCsvCopy sheet bytes other others
        → (wide ≡ other) × (rows ≡ others) }
    ensures deltas { (sheet : Sheet) (bytes : Text) (wide other : Bool) (changes others : List Change)
        → IsCsvDelta sheet bytes wide changes → IsCsvDelta sheet bytes other others
        → (wide ≡ other) × (changes ≡ others) }
{}

/// In JSON, copies of a sheet have different texts if their heads or their rows differ. So have deltas if their heads
/// or their changes differ. This is stated for texts of fewer than 2^64 bytes, as all texts in memory are.
pub fn json_tells_its_heads_and_rows()
    ensures copies { (sheet : Sheet) (bytes : Text) (head other : Head) (wide wider : Bool)
        → (rows others : List SheetRow)
        → length bytes < 2 ^ 64
        → IsCopy bytes sheet Form.Json head wide rows → IsCopy bytes sheet Form.Json other wider others
        → (head ≡ other) × (rows ≡ others) }
    ensures deltas { (sheet : Sheet) (bytes : Text) (head other : Head) (wide wider : Bool)
        → (changes others : List Change)
        → length bytes < 2 ^ 64
        → IsDelta bytes sheet Form.Json head wide changes → IsDelta bytes sheet Form.Json other wider others
        → (head ≡ other) × (changes ≡ others) }
{}

/// In JSON, the names of a sheet's fields rise in byte order.
pub fn json_names_rise()
    ensures { (sheet : Sheet) → IsStrictlySortedBy (slice_cmp nat_cmp) (json_names sheet) }
{}
