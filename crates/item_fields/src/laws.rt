//! Laws of the definitions, each as the contract of a function that does nothing.
ghost use Rattle.std.specs.Prelude.{◌≡◌, ◌≤◌, List, None, IsTrue, length};
ghost use Rattle.std.specs.List.{list_all};
ghost use Rattle.lei_code.specs.Texts.{Text};
ghost use Rattle.item_fields.specs.declared.fields.Kind.{Kind};
ghost use Rattle.lei_records.specs.declared.rules.Rules.{Rules};
ghost use Rattle.lei_records.specs.Cells.{has_no_event, successors_in};
ghost use Rattle.item_fields.specs.Fields.{field_has_name};
ghost use Rattle.item_fields.specs.Items.{IsRowOfKind, failed_check, row_of};
ghost use Rattle.item_fields.specs.Fields.{named_places};

/// The places that the definitions use are those of the fields that they name.
pub fn places_have_their_fields()
    ensures { (kind : Kind) → IsTrue (list_all (field_has_name kind) (named_places kind)) }
{}

/// An item that passes its checks has the row of an item of its kind.
pub fn good_items_have_rows()
    ensures { (rules : Rules) (kind : Kind) (pairs : List (Text × Text))
        → failed_check rules kind pairs ≡ None
        → IsRowOfKind kind (row_of kind pairs) }
{}

/// A record that passes its checks by the first or the second rules has no field of an event.
pub fn events_come_with_the_third_rules()
    ensures first { (pairs : List (Text × Text)) → failed_check Rules.First Kind.Record pairs ≡ None
        → IsTrue (has_no_event (row_of Kind.Record pairs)) }
    ensures second { (pairs : List (Text × Text)) → failed_check Rules.Second Kind.Record pairs ≡ None
        → IsTrue (has_no_event (row_of Kind.Record pairs)) }
{}

/// A record that passes its checks by the first rules names at most one successor.
pub fn first_rules_name_one_successor()
    ensures { (pairs : List (Text × Text)) → failed_check Rules.First Kind.Record pairs ≡ None
        → length (successors_in (row_of Kind.Record pairs)) ≤ 1 }
{}
