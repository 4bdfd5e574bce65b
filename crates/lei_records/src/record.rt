//! Records of legal entities.
ghost use Rattle.std.specs.Prelude.{◌≡◌, ◌≤◌, IfOk};
ghost use Rattle.lei_records.specs.Cells;
ghost use Rattle.lei_records.specs.Places.{record_places};
ghost use Rattle.lei_records.specs.Rows.{text_at};
ghost use Rattle.lei_records.specs.Spelled.{IsRecordRow};

use crate::field_texts::FieldTexts;
use crate::places;
use crate::printed::Printed;
use crate::successors::Successors;
use crate::texts::{code_at, present_code_at, present_moment_at, successors_at, text_at};
use lei_code::Lei;
use lei_shapes::{Category, EntityStatus, EventStatus, EventType, Moment, RecordStatus};
use lei_values::NoMemory;
use std::alloc::Global;
use std::marker::Model;
use std::sync::Arc;

/// A record of the register: a legal entity and its registration. Contracts see its row: its 32 texts in order of
/// place. An absent field is the empty text, and a moment is in printed form.
#[derive(Debug, Drop)]
pub struct Record {
    texts: Arc<FieldTexts, Global>,
    lei: Lei,
    status: RecordStatus,
    entity_status: EntityStatus,
    category: Category,
    manager: Lei,
    transfer_to: Option<Lei>,
    initial: Moment,
    updated: Moment,
    renewal: Moment,
    created: Option<Moment>,
}

impl Model for Record {
    ghost use Rattle.std.specs.Arc.{arc_value};
    ghost use Rattle.lei_records.specs.Rows.{Row};

    ghost Value = { Row };

    ghost use Rattle.lei_records.specs.Parts.{IsSpelled};

    ghost view = { λ r. arc_value r.texts };

    ghost invariant = { IsSpelled };
}

impl PartialEq for Record {
    ghost use Rattle.std.specs.Prelude.{◌==◌};
    ghost use Rattle.std.specs.Cmp.Lexicographic.{pointwise};
    ghost use Rattle.std.specs.Cmp.Rules.{comparing};
    ghost use Rattle.std.proofs.Common.{rules};

    ghost eq = { pointwise (pointwise ◌==◌) };

    ghost laws = { Prim.search (comparing, rules) };

    fn eq(&self, other: &Self) -> bool {
        *self.texts == *other.texts
    }
}

impl Eq for Record {
    ghost use Rattle.std.specs.Cmp.Rules.{comparing};
    ghost use Rattle.std.proofs.Common.{rules};

    ghost laws = { Prim.search (comparing, rules) };
}

impl Record {
    /// The record with these texts, which are moved into it. They must be the row of a record.
    pub fn of(alloc: Global, row: Printed) -> Result<Self, NoMemory>
        requires { IsRecordRow row }
        ensures { IfOk result (λ made. made ≡ row) }
    {
        let texts = row.texts();
        Ok(Record {
            lei: code_at(texts, places::LEI),
            category: category_of(texts),
            entity_status: entity_status_of(texts),
            created: row.present_moment(places::CREATED),
            initial: row.moment(places::INITIAL),
            updated: row.moment(places::UPDATED),
            status: status_of(texts),
            renewal: row.moment(places::RENEWAL),
            manager: code_at(texts, places::MANAGER),
            transfer_to: present_code_at(texts, places::TRANSFER_TO),
            texts: Arc::new(alloc, row.into_texts())?,
        })
    }

    /// Its texts in order of place.
    pub fn texts(&self) -> &FieldTexts
        ensures value { result.now ≡ self.now }
        ensures row { IsRecordRow self.now }
    {
        &self.texts
    }

    /// The text of a field, by its place from 1 to 32: the empty text if the field is absent.
    pub fn field(&self, place: u8) -> &str
        requires first { 1 ≤ place }
        requires last { place ≤ record_places }
        ensures value { result.now ≡ text_at self.now place }
        ensures row { IsRecordRow self.now }
    {
        text_at(&self.texts, usize::from(place))
    }

    /// The entity's LEI: the field LEI.
    pub fn lei(&self) -> Lei
        ensures value { result ≡ Cells.lei_in self.now }
        ensures row { IsRecordRow self.now }
    {
        self.lei
    }

    /// The status of its registration: the field Registration.RegistrationStatus.
    pub fn status(&self) -> RecordStatus
        ensures { result ≡ Cells.status_in self.now }
    {
        self.status
    }

    /// Whether the entity is active: the field Entity.EntityStatus.
    pub fn entity_status(&self) -> EntityStatus
        ensures { result ≡ Cells.entity_status_in self.now }
    {
        self.entity_status
    }

    /// The kind of entity: the field Entity.EntityCategory.
    pub fn category(&self) -> Category
        ensures { result ≡ Cells.category_in self.now }
    {
        self.category
    }

    /// The registration authority: the field Entity.RegistrationAuthority.RegistrationAuthorityID.
    pub fn authority(&self) -> &str
        ensures { result.now ≡ Cells.authority_in self.now }
    {
        text_at(&self.texts, places::AUTHORITY)
    }

    /// The authority's id for the entity: the field Entity.RegistrationAuthority.RegistrationAuthorityEntityID. It is
    /// the empty text if the field is absent.
    pub fn authority_id(&self) -> &str
        ensures { result.now ≡ Cells.authority_id_in self.now }
    {
        text_at(&self.texts, places::AUTHORITY_ID)
    }

    /// The issuer that manages the record: the field Registration.ManagingLOU.
    pub fn manager(&self) -> Lei
        ensures { result ≡ Cells.manager_in self.now }
    {
        self.manager
    }

    /// The entities that succeeded this one, at most five: the field Entity.SuccessorEntity.1.SuccessorLEI.
    pub fn successors(&self) -> Successors
        ensures { result ≡ Cells.successors_in self.now }
    {
        successors_at(&self.texts)
    }

    /// The first of them, which is the only one by the first rules.
    pub fn successor(&self) -> Option<Lei>
        ensures { result ≡ Cells.successor_in self.now }
    {
        self.successors().first()
    }

    /// The issuer that the record is to be transferred to: the field Register.TransferTo.
    pub fn transfer_to(&self) -> Option<Lei>
        ensures { result ≡ Cells.receiver_in self.now }
    {
        self.transfer_to
    }

    /// When the record was first registered: the field Registration.InitialRegistrationDate.
    pub fn initial(&self) -> Moment
        ensures { result ≡ Cells.initial_in self.now }
    {
        self.initial
    }

    /// When the record was last changed: the field Registration.LastUpdateDate.
    pub fn updated(&self) -> Moment
        ensures { result ≡ Cells.updated_in self.now }
    {
        self.updated
    }

    /// When the registration is to be renewed: the field Registration.NextRenewalDate.
    pub fn renewal(&self) -> Moment
        ensures { result ≡ Cells.renewal_in self.now }
    {
        self.renewal
    }

    /// When the entity was created: the field Entity.EntityCreationDate.
    pub fn created(&self) -> Option<Moment>
        ensures { result ≡ Cells.created_in self.now }
    {
        self.created
    }

    /// What happens to the entity: the field Entity.Event.1.Type.
    pub fn event_type(&self) -> Option<EventType>
        ensures { result ≡ Cells.event_type_in self.now }
    {
        let text = text_at(&self.texts, places::EVENT_TYPE);
        if text.is_empty() {
            return None;
        }
        EventType::read(text)
    }

    /// When that event takes effect: the field Entity.Event.1.EffectiveDate.
    pub fn event_effective(&self) -> Option<Moment>
        ensures { result ≡ Cells.event_effective_in self.now }
    {
        present_moment_at(&self.texts, places::EVENT_EFFECTIVE)
    }

    /// When the event was recorded: the field Entity.Event.1.RecordedDate.
    pub fn event_recorded(&self) -> Option<Moment>
        ensures { result ≡ Cells.event_recorded_in self.now }
    {
        present_moment_at(&self.texts, places::EVENT_RECORDED)
    }

    /// How far the event has come: the field Entity.Event.1.Status.
    pub fn event_status(&self) -> Option<EventStatus>
        ensures { result ≡ Cells.event_status_in self.now }
    {
        let text = text_at(&self.texts, places::EVENT_STATUS);
        if text.is_empty() {
            return None;
        }
        EventStatus::read(text)
    }

    /// A copy of the record. It shares the texts, so no memory is allocated for them.
    pub fn share(&self) -> Result<Record, NoMemory>
        ensures { IfOk result (λ shared. shared ≡ self.now) }
    {
        let texts = Arc::try_clone(&self.texts)?;
        Ok(Record {
            texts,
            lei: self.lei,
            status: self.status,
            entity_status: self.entity_status,
            category: self.category,
            manager: self.manager,
            transfer_to: self.transfer_to,
            initial: self.initial,
            updated: self.updated,
            renewal: self.renewal,
            created: self.created,
        })
    }
}

#[tactic(auto, unfolding(crate::specs::Cells::status_in))]
fn status_of(texts: &FieldTexts) -> RecordStatus
    requires { IsRecordRow texts.now }
    ensures { result ≡ Cells.status_in texts.now }
{
    match RecordStatus::read(text_at(texts, places::STATUS)) {
        Some(value) => value,
        None => unreachable!(),
    }
}

#[tactic(auto, unfolding(crate::specs::Cells::entity_status_in))]
fn entity_status_of(texts: &FieldTexts) -> EntityStatus
    requires { IsRecordRow texts.now }
    ensures { result ≡ Cells.entity_status_in texts.now }
{
    match EntityStatus::read(text_at(texts, places::ENTITY_STATUS)) {
        Some(value) => value,
        None => unreachable!(),
    }
}

#[tactic(auto, unfolding(crate::specs::Cells::category_in))]
fn category_of(texts: &FieldTexts) -> Category
    requires { IsRecordRow texts.now }
    ensures { result ≡ Cells.category_in texts.now }
{
    match Category::read(text_at(texts, places::CATEGORY)) {
        Some(value) => value,
        None => unreachable!(),
    }
}
