//! Relationships between entities.
ghost use Rattle.std.specs.Prelude.{◌≡◌, ◌≤◌, IfOk};
ghost use Rattle.lei_records.specs.Places.{relation_places};
ghost use Rattle.lei_records.specs.Relations;
ghost use Rattle.lei_records.specs.Rows.{text_at};
ghost use Rattle.lei_records.specs.Spelled.{IsRelationRow};

use crate::field_texts::FieldTexts;
use crate::places;
use crate::printed::Printed;
use crate::texts::{code_at, text_at};
use lei_code::Lei;
use lei_shapes::{Moment, RelationRegistration, RelationStatus, RelationType};
use lei_values::NoMemory;
use std::alloc::Global;
use std::marker::Model;
use std::sync::Arc;

/// A relationship of the register: how one entity is related to another. Contracts see its row: its 11 texts in order
/// of place. An absent field is the empty text, and a moment is in printed form.
#[derive(Debug, Drop)]
pub struct Relation {
    texts: Arc<FieldTexts, Global>,
    start: Lei,
    kind: RelationType,
    end: Lei,
    status: RelationStatus,
    start_date: Moment,
    end_date: Option<Moment>,
    initial: Moment,
    updated: Moment,
    registration: RelationRegistration,
    manager: Lei,
}

impl Model for Relation {
    ghost use Rattle.std.specs.Arc.{arc_value};
    ghost use Rattle.lei_records.specs.Rows.{Row};

    ghost Value = { Row };

    ghost use Rattle.lei_records.specs.Parts.{IsRelationSpelled};

    ghost view = { λ r. arc_value r.texts };

    ghost invariant = { IsRelationSpelled };
}

impl PartialEq for Relation {
    ghost use Rattle.std.specs.Prelude.{◌==◌};
    ghost use Rattle.std.specs.Cmp.Lexicographic.{pointwise};
    ghost use Rattle.std.specs.Cmp.Rules.{comparing};
    ghost use Rattle.std.proofs.Common.{rules};

    ghost eq = { pointwise (pointwise ◌==◌) };

    ghost laws = { Prim.search (comparing, rules) };

    fn eq(&self, other: &Self) -> bool {
        *self.texts == *other.texts
    }
}

impl Eq for Relation {
    ghost use Rattle.std.specs.Cmp.Rules.{comparing};
    ghost use Rattle.std.proofs.Common.{rules};

    ghost laws = { Prim.search (comparing, rules) };
}

impl Relation {
    /// The relationship with these texts, which are moved into it. They must be the row of a relationship.
    pub fn of(alloc: Global, row: Printed) -> Result<Self, NoMemory>
        requires { IsRelationRow row }
        ensures { IfOk result (λ made. made ≡ row) }
    {
        let texts = row.texts();
        Ok(Relation {
            start: code_at(texts, places::START),
            kind: kind_of(texts),
            end: code_at(texts, places::END),
            status: status_of(texts),
            start_date: row.moment(places::START_DATE),
            end_date: row.present_moment(places::END_DATE),
            initial: row.moment(places::RELATION_INITIAL),
            updated: row.moment(places::RELATION_UPDATED),
            registration: registration_of(texts),
            manager: code_at(texts, places::RELATION_MANAGER),
            texts: Arc::new(alloc, row.into_texts())?,
        })
    }

    /// Its texts in order of place.
    pub fn texts(&self) -> &FieldTexts
        ensures value { result.now ≡ self.now }
        ensures row { IsRelationRow self.now }
    {
        &self.texts
    }

    /// The text of a field, by its place from 1 to 11: the empty text if the field is absent.
    pub fn field(&self, place: u8) -> &str
        requires first { 1 ≤ place }
        requires last { place ≤ relation_places }
        ensures value { result.now ≡ text_at self.now place }
        ensures row { IsRelationRow self.now }
    {
        text_at(&self.texts, usize::from(place))
    }

    /// The LEI of the entity that it starts at: the field Relationship.StartNode.
    pub fn start(&self) -> Lei
        ensures value { result ≡ Relations.start_in self.now }
        ensures row { IsRelationRow self.now }
    {
        self.start
    }

    /// How the start is related to the end: the field Relationship.RelationshipType.
    pub fn kind(&self) -> RelationType
        ensures { result ≡ Relations.kind_in self.now }
    {
        self.kind
    }

    /// The LEI of the entity that it ends at: the field Relationship.EndNode.
    pub fn end(&self) -> Lei
        ensures { result ≡ Relations.end_in self.now }
    {
        self.end
    }

    /// Whether the relationship is active: the field Relationship.RelationshipStatus.
    pub fn status(&self) -> RelationStatus
        ensures { result ≡ Relations.relation_status_in self.now }
    {
        self.status
    }

    /// Whether that status is ACTIVE.
    pub fn is_active(&self) -> bool
        ensures { result ≡ Relations.is_active self.now }
    {
        is_active_status(self.status)
    }

    /// When the relationship started: the field Relationship.StartDate.
    pub fn start_date(&self) -> Moment
        ensures { result ≡ Relations.started_in self.now }
    {
        self.start_date
    }

    /// When the relationship ended: the field Relationship.EndDate.
    pub fn end_date(&self) -> Option<Moment>
        ensures { result ≡ Relations.ended_in self.now }
    {
        self.end_date
    }

    /// When it was first registered: the field Registration.InitialRegistrationDate.
    pub fn initial(&self) -> Moment
        ensures { result ≡ Relations.relation_initial_in self.now }
    {
        self.initial
    }

    /// When it was last changed: the field Registration.LastUpdateDate.
    pub fn updated(&self) -> Moment
        ensures { result ≡ Relations.relation_updated_in self.now }
    {
        self.updated
    }

    /// The status of its registration: the field Registration.RegistrationStatus.
    pub fn registration(&self) -> RelationRegistration
        ensures { result ≡ Relations.registration_in self.now }
    {
        self.registration
    }

    /// The issuer that manages it: the field Registration.ManagingLOU.
    pub fn manager(&self) -> Lei
        ensures { result ≡ Relations.relation_manager_in self.now }
    {
        self.manager
    }

    /// A copy of the relationship. It shares the texts, so no memory is allocated for them.
    pub fn share(&self) -> Result<Relation, NoMemory>
        ensures { IfOk result (λ shared. shared ≡ self.now) }
    {
        let texts = Arc::try_clone(&self.texts)?;
        Ok(Relation {
            texts,
            start: self.start,
            kind: self.kind,
            end: self.end,
            status: self.status,
            start_date: self.start_date,
            end_date: self.end_date,
            initial: self.initial,
            updated: self.updated,
            registration: self.registration,
            manager: self.manager,
        })
    }
}

fn is_active_status(status: RelationStatus) -> bool
    ensures { result ≡ Relations.is_active_status status }
{
    status == RelationStatus::Active
}

#[tactic(auto, unfolding(crate::specs::Relations::kind_in))]
fn kind_of(texts: &FieldTexts) -> RelationType
    requires { IsRelationRow texts.now }
    ensures { result ≡ Relations.kind_in texts.now }
{
    match RelationType::read(text_at(texts, places::TYPE)) {
        Some(value) => value,
        None => unreachable!(),
    }
}

#[tactic(auto, unfolding(crate::specs::Relations::relation_status_in))]
fn status_of(texts: &FieldTexts) -> RelationStatus
    requires { IsRelationRow texts.now }
    ensures { result ≡ Relations.relation_status_in texts.now }
{
    match RelationStatus::read(text_at(texts, places::RELATION_STATUS)) {
        Some(value) => value,
        None => unreachable!(),
    }
}

#[tactic(auto, unfolding(crate::specs::Relations::registration_in))]
fn registration_of(texts: &FieldTexts) -> RelationRegistration
    requires { IsRelationRow texts.now }
    ensures { result ≡ Relations.registration_in texts.now }
{
    match RelationRegistration::read(text_at(texts, places::REGISTRATION)) {
        Some(value) => value,
        None => unreachable!(),
    }
}
