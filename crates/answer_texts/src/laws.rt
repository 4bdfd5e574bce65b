//! A law of the definitions, stated as the contract of a function that does nothing.
ghost use Rattle.std.specs.Prelude.{List, All, map};
ghost use Rattle.item_fields.specs.Items.{ready};
ghost use Rattle.lei_records.specs.Tables.{Table};
ghost use Rattle.item_fields.specs.declared.item.RawItem.{RawItem};
ghost use Rattle.lei_records.specs.declared.rules.Rules.{Rules};
ghost use Rattle.register_judge.specs.declared.sitting.Sitting.{Sitting};
ghost use Rattle.register_judge.specs.Taking.{take};
ghost use Rattle.answer_texts.specs.Answers.{HasItsCheck};

/// Each check that a verdict on an item of an upload reports has a number in the list of checks, and so a text. This
/// holds for any rules by which the item was prepared.
pub fn verdicts_are_told()
    ensures { (rules : Rules) (table : Table) (sitting : Sitting) (raws : List RawItem) →
        All HasItsCheck (take table sitting (map (ready rules) raws)).verdicts }
{}
