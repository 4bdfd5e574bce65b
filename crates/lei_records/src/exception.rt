//! Reporting exceptions.
ghost use Rattle.std.specs.Prelude.{◌≡◌, ◌≤◌, IfOk};
ghost use Rattle.lei_records.specs.Exceptions;
ghost use Rattle.lei_records.specs.Places.{exception_places};
ghost use Rattle.lei_records.specs.Rows.{text_at};
ghost use Rattle.lei_records.specs.Spelled.{IsExceptionRow};

use crate::field_texts::FieldTexts;
use crate::places;
use crate::texts::{code_at, text_at};
use lei_code::Lei;
use lei_shapes::{ExceptionCategory, Reason};
use lei_values::NoMemory;
use std::alloc::Global;
use std::marker::Model;
use std::sync::Arc;

/// A reporting exception, which says why an entity reports no parent of a category, or the withdrawal of one. Contracts
/// see its row and whether it is a withdrawal. The row is its four texts in order of place; an absent field is the
/// empty text.
#[derive(Debug, Drop)]
pub struct ExceptionItem {
    texts: Arc<FieldTexts, Global>,
    withdraws: bool,
    lei: Lei,
    category: ExceptionCategory,
    reason: Option<Reason>,
}

impl Model for ExceptionItem {
    ghost use Rattle.std.specs.Prelude.{Bool};
    ghost use Rattle.std.specs.Arc.{arc_value};
    ghost use Rattle.lei_records.specs.Rows.{Row};

    ghost Value = { Row × Bool };

    ghost use Rattle.lei_records.specs.Parts.{IsExceptionSpelled};

    ghost view = { λ e. (arc_value e.texts, e.withdraws) };

    ghost invariant = { IsExceptionSpelled };
}

impl PartialEq for ExceptionItem {
    ghost use Rattle.std.specs.Prelude.{◌==◌};
    ghost use Rattle.std.specs.Bool.{beq};
    ghost use Rattle.std.specs.Ordering.{eq_of_both, on};
    ghost use Rattle.std.specs.Cmp.Lexicographic.{pointwise};
    ghost use Rattle.std.specs.Cmp.Rules.{comparing};
    ghost use Rattle.std.proofs.Common.{rules};

    ghost eq = { eq_of_both (on (λ item. item.0) (pointwise (pointwise ◌==◌))) (on (λ item. item.1) beq) };

    ghost laws = { Prim.search (comparing, rules) depth 8 };

    fn eq(&self, other: &Self) -> bool {
        *self.texts == *other.texts && self.withdraws == other.withdraws
    }
}

impl Eq for ExceptionItem {
    ghost use Rattle.std.specs.Cmp.Rules.{comparing};
    ghost use Rattle.std.proofs.Common.{rules};

    ghost laws = { Prim.search (comparing, rules) };
}

impl ExceptionItem {
    /// The exception with these texts, or its withdrawal. The texts are moved into it, and must be the row of an
    /// exception.
    pub fn of(alloc: Global, texts: FieldTexts, withdraws: bool) -> Result<Self, NoMemory>
        requires { IsExceptionRow texts }
        ensures { IfOk result (λ made. made ≡ (texts, withdraws)) }
    {
        Ok(ExceptionItem {
            lei: code_at(&texts, places::SUBJECT),
            category: category_of(&texts),
            reason: reason_of(&texts),
            texts: Arc::new(alloc, texts)?,
            withdraws,
        })
    }

    /// Its texts in order of place.
    pub fn texts(&self) -> &FieldTexts
        ensures value { result.now ≡ self.now.0 }
        ensures row { IsExceptionRow self.now.0 }
    {
        &self.texts
    }

    /// The text of a field, by its place from 1 to 4: the empty text if the field is absent.
    pub fn field(&self, place: u8) -> &str
        requires first { 1 ≤ place }
        requires last { place ≤ exception_places }
        ensures value { result.now ≡ text_at self.now.0 place }
        ensures row { IsExceptionRow self.now.0 }
    {
        text_at(&self.texts, usize::from(place))
    }

    /// The LEI of the entity that reports no parent: the field LEI.
    pub fn lei(&self) -> Lei
        ensures value { result ≡ Exceptions.subject_in self.now.0 }
        ensures row { IsExceptionRow self.now.0 }
    {
        self.lei
    }

    /// Which parent the entity doesn't report: the field ExceptionCategory.
    pub fn category(&self) -> ExceptionCategory
        ensures { result ≡ Exceptions.exception_category_in self.now.0 }
    {
        self.category
    }

    /// Why the entity doesn't report the parent: the field ExceptionReason.
    pub fn reason(&self) -> Option<Reason>
        ensures { result ≡ Exceptions.reason_in self.now.0 }
    {
        self.reason
    }

    /// Whether it withdraws a held exception: the field Action is WITHDRAW.
    pub fn withdraws(&self) -> bool
        ensures { result ≡ self.now.1 }
    {
        self.withdraws
    }

    /// A copy of the exception. It shares the texts, so no memory is allocated for them.
    pub fn share(&self) -> Result<ExceptionItem, NoMemory>
        ensures { IfOk result (λ shared. shared ≡ self.now) }
    {
        let texts = Arc::try_clone(&self.texts)?;
        Ok(ExceptionItem {
            texts,
            withdraws: self.withdraws,
            lei: self.lei,
            category: self.category,
            reason: self.reason,
        })
    }
}

#[tactic(auto, unfolding(crate::specs::Exceptions::exception_category_in))]
fn category_of(texts: &FieldTexts) -> ExceptionCategory
    requires { IsExceptionRow texts.now }
    ensures { result ≡ Exceptions.exception_category_in texts.now }
{
    match ExceptionCategory::read(text_at(texts, places::EXCEPTION_CATEGORY)) {
        Some(value) => value,
        None => unreachable!(),
    }
}

// The reason that the text at its place reads as, or `None` if the text is absent.
fn reason_of(texts: &FieldTexts) -> Option<Reason>
    requires { IsExceptionRow texts.now }
    ensures { result ≡ Exceptions.reason_in texts.now }
{
    let text = text_at(texts, places::REASON);
    if text.is_empty() {
        return None;
    }
    Reason::read(text)
}
