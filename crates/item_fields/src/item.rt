//! Items as they were sent: names with their texts.
use lei_values::{List, NoMemory, Texts};
use std::alloc::Global;
use std::marker::Model;

/// The fields of an item as they were sent: names, each with its text, both in UTF-8. They are in byte order of the
/// names, and no name occurs twice. Names that no item has and empty texts are kept: the checks of the item decide on
/// them. All are stored in one piece of memory. Contracts see the list of pairs.
#[derive(Debug, Drop)]
pub struct Fields {
    // A name, its text, the next name, and so on.
    texts: Texts,
}

impl Model for Fields {
    ghost use Rattle.std.specs.Prelude.{List as Listed, ℕ};
    ghost use Rattle.item_fields.specs.Names.{ArePaired, in_pairs};

    ghost Value = { Listed (Listed ℕ × Listed ℕ) };

    ghost view = { λ fields. in_pairs fields.texts };

    ghost invariant = { λ fields. ArePaired fields.texts };
}

impl Fields {
    ghost use Rattle.std.specs.Prelude.{◌≡◌, ◌<◌, ◌++◌, ◌∷◌, [], codes, length, slice_index_or, IfOk};
    ghost use Rattle.item_fields.specs.Names.{NamesRise};

    /// No fields yet, with room for this many fields, whose names and texts have this many bytes in total.
    pub fn with_capacity(alloc: Global, fields: usize, bytes: usize) -> Result<Self, NoMemory>
        ensures { IfOk result (λ made. made ≡ []) }
    {
        let texts = Texts::with_capacity(alloc, fields.saturating_mul(2), bytes)?;
        Ok(Fields { texts })
    }

    /// These fields and one more, as the last. With its name the names must still rise strictly.
    pub fn with(self, name: &str, text: &str) -> Result<Self, NoMemory>
        requires { NamesRise (self ++ (name.now, text.now) ∷ []) }
        ensures { IfOk result (λ made. made ≡ self ++ (name.now, text.now) ∷ []) }
    {
        let mut texts = self.texts;
        texts.push(name)?;
        texts.push(text)?;
        Ok(Fields { texts })
    }

    /// The number of fields.
    pub fn len(&self) -> usize
        ensures value { result ≡ length self.now }
        ensures rising { NamesRise self.now }
    {
        self.texts.len() / 2
    }

    /// The name of the field at this index.
    pub fn name(&self, index: usize) -> &str
        requires { index < length self.now }
        ensures { result.now ≡ (slice_index_or self.now index (codes "", codes "")).0 }
    {
        // The number of texts is even, so twice the index is within range.
        let _count = self.texts.len();
        self.texts.text(2 * index)
    }

    /// The text of the field at this index.
    pub fn text(&self, index: usize) -> &str
        requires { index < length self.now }
        ensures { result.now ≡ (slice_index_or self.now index (codes "", codes "")).1 }
    {
        let _count = self.texts.len();
        self.texts.text(2 * index + 1)
    }
}

/// An item as it was sent, before any check of its fields.
#[derive(Debug, Drop)]
pub enum RawItem {
    /// An entity's record: a member of the list `records`.
    Record(Fields),
    /// A relationship between two entities: a member of the list `relationships`.
    Relation(Fields),
    /// A reporting exception or the withdrawal of one: a member of the list `exceptions`.
    Exception(Fields),
}

/// The items of a body, in the order in which they are judged: records, relationships, exceptions. Within each list
/// they are in the order in which they were sent.
#[derive(Debug, Drop)]
pub struct Upload {
    pub items: List<RawItem>,
}
