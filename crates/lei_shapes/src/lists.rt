//! The lists of values: an enum for each, with the text of every value.
ghost use Rattle.std.specs.Prelude.{◌≡◌};

/// The registration status of a record.
#[derive(Clone, Copy, Debug, PartialEq, Eq, Hash)]
pub enum RecordStatus {
    Issued,
    Lapsed,
    PendingTransfer,
    PendingArchival,
    Retired,
    Duplicate,
    Annulled,
}

impl RecordStatus {
    ghost use Rattle.lei_shapes.specs.Lists.{IsReadBy, record_status_text, record_status_of};

    /// The value with this text, byte for byte.
    pub fn read(text: &str) -> Option<RecordStatus>
        ensures reads { IsReadBy record_status_text text.now result }
        ensures value { result ≡ record_status_of text.now }
    {
        match text {
            "ISSUED" => Some(RecordStatus::Issued),
            "LAPSED" => Some(RecordStatus::Lapsed),
            "PENDING_TRANSFER" => Some(RecordStatus::PendingTransfer),
            "PENDING_ARCHIVAL" => Some(RecordStatus::PendingArchival),
            "RETIRED" => Some(RecordStatus::Retired),
            "DUPLICATE" => Some(RecordStatus::Duplicate),
            "ANNULLED" => Some(RecordStatus::Annulled),
            _ => None,
        }
    }

    /// Its text.
    pub fn text(self) -> &'static str
        ensures { result.now ≡ record_status_text self }
    {
        match self {
            RecordStatus::Issued => "ISSUED",
            RecordStatus::Lapsed => "LAPSED",
            RecordStatus::PendingTransfer => "PENDING_TRANSFER",
            RecordStatus::PendingArchival => "PENDING_ARCHIVAL",
            RecordStatus::Retired => "RETIRED",
            RecordStatus::Duplicate => "DUPLICATE",
            RecordStatus::Annulled => "ANNULLED",
        }
    }
}

/// Whether the entity itself is active.
#[derive(Clone, Copy, Debug, PartialEq, Eq, Hash)]
pub enum EntityStatus {
    Active,
    Inactive,
    Null,
}

impl EntityStatus {
    ghost use Rattle.lei_shapes.specs.Lists.{IsReadBy, entity_status_text, entity_status_of};

    /// The value with this text, byte for byte.
    pub fn read(text: &str) -> Option<EntityStatus>
        ensures reads { IsReadBy entity_status_text text.now result }
        ensures value { result ≡ entity_status_of text.now }
    {
        match text {
            "ACTIVE" => Some(EntityStatus::Active),
            "INACTIVE" => Some(EntityStatus::Inactive),
            "NULL" => Some(EntityStatus::Null),
            _ => None,
        }
    }

    /// Its text.
    pub fn text(self) -> &'static str
        ensures { result.now ≡ entity_status_text self }
    {
        match self {
            EntityStatus::Active => "ACTIVE",
            EntityStatus::Inactive => "INACTIVE",
            EntityStatus::Null => "NULL",
        }
    }
}

/// The kind of entity.
#[derive(Clone, Copy, Debug, PartialEq, Eq, Hash)]
pub enum Category {
    General,
    Branch,
    Fund,
    SoleProprietor,
    ResidentGovernmentEntity,
    InternationalOrganization,
}

impl Category {
    ghost use Rattle.lei_shapes.specs.Lists.{IsReadBy, category_text, category_of};

    /// The value with this text, byte for byte.
    pub fn read(text: &str) -> Option<Category>
        ensures reads { IsReadBy category_text text.now result }
        ensures value { result ≡ category_of text.now }
    {
        match text {
            "GENERAL" => Some(Category::General),
            "BRANCH" => Some(Category::Branch),
            "FUND" => Some(Category::Fund),
            "SOLE_PROPRIETOR" => Some(Category::SoleProprietor),
            "RESIDENT_GOVERNMENT_ENTITY" => Some(Category::ResidentGovernmentEntity),
            "INTERNATIONAL_ORGANIZATION" => Some(Category::InternationalOrganization),
            _ => None,
        }
    }

    /// Its text.
    pub fn text(self) -> &'static str
        ensures { result.now ≡ category_text self }
    {
        match self {
            Category::General => "GENERAL",
            Category::Branch => "BRANCH",
            Category::Fund => "FUND",
            Category::SoleProprietor => "SOLE_PROPRIETOR",
            Category::ResidentGovernmentEntity => "RESIDENT_GOVERNMENT_ENTITY",
            Category::InternationalOrganization => "INTERNATIONAL_ORGANIZATION",
        }
    }
}

/// How far the data were corroborated by other sources.
#[derive(Clone, Copy, Debug, PartialEq, Eq, Hash)]
pub enum Validation {
    Pending,
    EntitySuppliedOnly,
    PartiallyCorroborated,
    FullyCorroborated,
}

impl Validation {
    ghost use Rattle.lei_shapes.specs.Lists.{IsReadBy, validation_text, validation_of};

    /// The value with this text, byte for byte.
    pub fn read(text: &str) -> Option<Validation>
        ensures reads { IsReadBy validation_text text.now result }
        ensures value { result ≡ validation_of text.now }
    {
        match text {
            "PENDING" => Some(Validation::Pending),
            "ENTITY_SUPPLIED_ONLY" => Some(Validation::EntitySuppliedOnly),
            "PARTIALLY_CORROBORATED" => Some(Validation::PartiallyCorroborated),
            "FULLY_CORROBORATED" => Some(Validation::FullyCorroborated),
            _ => None,
        }
    }

    /// Its text.
    pub fn text(self) -> &'static str
        ensures { result.now ≡ validation_text self }
    {
        match self {
            Validation::Pending => "PENDING",
            Validation::EntitySuppliedOnly => "ENTITY_SUPPLIED_ONLY",
            Validation::PartiallyCorroborated => "PARTIALLY_CORROBORATED",
            Validation::FullyCorroborated => "FULLY_CORROBORATED",
        }
    }
}

/// How the start of a relationship is related to its end.
#[derive(Clone, Copy, Debug, PartialEq, Eq, Hash)]
pub enum RelationType {
    IsDirectlyConsolidatedBy,
    IsUltimatelyConsolidatedBy,
    IsInternationalBranchOf,
    IsFundManagedBy,
    IsSubfundOf,
    IsFeederTo,
}

impl RelationType {
    ghost use Rattle.lei_shapes.specs.Lists.{IsReadBy, relation_type_text, relation_type_of};

    /// The value with this text, byte for byte.
    pub fn read(text: &str) -> Option<RelationType>
        ensures reads { IsReadBy relation_type_text text.now result }
        ensures value { result ≡ relation_type_of text.now }
    {
        match text {
            "IS_DIRECTLY_CONSOLIDATED_BY" => Some(RelationType::IsDirectlyConsolidatedBy),
            "IS_ULTIMATELY_CONSOLIDATED_BY" => Some(RelationType::IsUltimatelyConsolidatedBy),
            "IS_INTERNATIONAL_BRANCH_OF" => Some(RelationType::IsInternationalBranchOf),
            "IS_FUND-MANAGED_BY" => Some(RelationType::IsFundManagedBy),
            "IS_SUBFUND_OF" => Some(RelationType::IsSubfundOf),
            "IS_FEEDER_TO" => Some(RelationType::IsFeederTo),
            _ => None,
        }
    }

    /// Its text.
    pub fn text(self) -> &'static str
        ensures { result.now ≡ relation_type_text self }
    {
        match self {
            RelationType::IsDirectlyConsolidatedBy => "IS_DIRECTLY_CONSOLIDATED_BY",
            RelationType::IsUltimatelyConsolidatedBy => "IS_ULTIMATELY_CONSOLIDATED_BY",
            RelationType::IsInternationalBranchOf => "IS_INTERNATIONAL_BRANCH_OF",
            RelationType::IsFundManagedBy => "IS_FUND-MANAGED_BY",
            RelationType::IsSubfundOf => "IS_SUBFUND_OF",
            RelationType::IsFeederTo => "IS_FEEDER_TO",
        }
    }
}

/// Whether the relationship holds.
#[derive(Clone, Copy, Debug, PartialEq, Eq, Hash)]
pub enum RelationStatus {
    Active,
    Inactive,
}

impl RelationStatus {
    ghost use Rattle.lei_shapes.specs.Lists.{IsReadBy, relation_status_text, relation_status_of};

    /// The value with this text, byte for byte.
    pub fn read(text: &str) -> Option<RelationStatus>
        ensures reads { IsReadBy relation_status_text text.now result }
        ensures value { result ≡ relation_status_of text.now }
    {
        match text {
            "ACTIVE" => Some(RelationStatus::Active),
            "INACTIVE" => Some(RelationStatus::Inactive),
            _ => None,
        }
    }

    /// Its text.
    pub fn text(self) -> &'static str
        ensures { result.now ≡ relation_status_text self }
    {
        match self {
            RelationStatus::Active => "ACTIVE",
            RelationStatus::Inactive => "INACTIVE",
        }
    }
}

/// The registration status of a relationship.
#[derive(Clone, Copy, Debug, PartialEq, Eq, Hash)]
pub enum RelationRegistration {
    Issued,
    Published,
    Lapsed,
    Retired,
    Annulled,
}

impl RelationRegistration {
    ghost use Rattle.lei_shapes.specs.Lists.{IsReadBy, relation_registration_text, relation_registration_of};

    /// The value with this text, byte for byte.
    pub fn read(text: &str) -> Option<RelationRegistration>
        ensures reads { IsReadBy relation_registration_text text.now result }
        ensures value { result ≡ relation_registration_of text.now }
    {
        match text {
            "ISSUED" => Some(RelationRegistration::Issued),
            "PUBLISHED" => Some(RelationRegistration::Published),
            "LAPSED" => Some(RelationRegistration::Lapsed),
            "RETIRED" => Some(RelationRegistration::Retired),
            "ANNULLED" => Some(RelationRegistration::Annulled),
            _ => None,
        }
    }

    /// Its text.
    pub fn text(self) -> &'static str
        ensures { result.now ≡ relation_registration_text self }
    {
        match self {
            RelationRegistration::Issued => "ISSUED",
            RelationRegistration::Published => "PUBLISHED",
            RelationRegistration::Lapsed => "LAPSED",
            RelationRegistration::Retired => "RETIRED",
            RelationRegistration::Annulled => "ANNULLED",
        }
    }
}

/// Which parent a reporting exception is about.
#[derive(Clone, Copy, Debug, PartialEq, Eq, Hash)]
pub enum ExceptionCategory {
    DirectAccountingConsolidationParent,
    UltimateAccountingConsolidationParent,
}

impl ExceptionCategory {
    ghost use Rattle.lei_shapes.specs.Lists.{IsReadBy, exception_category_text, exception_category_of};

    /// The value with this text, byte for byte.
    pub fn read(text: &str) -> Option<ExceptionCategory>
        ensures reads { IsReadBy exception_category_text text.now result }
        ensures value { result ≡ exception_category_of text.now }
    {
        match text {
            "DIRECT_ACCOUNTING_CONSOLIDATION_PARENT" => Some(
                ExceptionCategory::DirectAccountingConsolidationParent,
            ),
            "ULTIMATE_ACCOUNTING_CONSOLIDATION_PARENT" => Some(
                ExceptionCategory::UltimateAccountingConsolidationParent,
            ),
            _ => None,
        }
    }

    /// Its text.
    pub fn text(self) -> &'static str
        ensures { result.now ≡ exception_category_text self }
    {
        match self {
            ExceptionCategory::DirectAccountingConsolidationParent =>
                "DIRECT_ACCOUNTING_CONSOLIDATION_PARENT",
            ExceptionCategory::UltimateAccountingConsolidationParent =>
                "ULTIMATE_ACCOUNTING_CONSOLIDATION_PARENT",
        }
    }
}

/// Why no parent is reported.
#[derive(Clone, Copy, Debug, PartialEq, Eq, Hash)]
pub enum Reason {
    NaturalPersons,
    NonConsolidating,
    NoKnownPerson,
    NoLei,
    NonPublic,
    ConsentNotObtained,
    BindingLegalCommitments,
    LegalObstacles,
    DisclosureDetrimental,
    DetrimentNotExcluded,
}

impl Reason {
    ghost use Rattle.lei_shapes.specs.Lists.{IsReadBy, reason_text, reason_of};

    /// The value with this text, byte for byte.
    pub fn read(text: &str) -> Option<Reason>
        ensures reads { IsReadBy reason_text text.now result }
        ensures value { result ≡ reason_of text.now }
    {
        match text {
            "NATURAL_PERSONS" => Some(Reason::NaturalPersons),
            "NON_CONSOLIDATING" => Some(Reason::NonConsolidating),
            "NO_KNOWN_PERSON" => Some(Reason::NoKnownPerson),
            "NO_LEI" => Some(Reason::NoLei),
            "NON_PUBLIC" => Some(Reason::NonPublic),
            "CONSENT_NOT_OBTAINED" => Some(Reason::ConsentNotObtained),
            "BINDING_LEGAL_COMMITMENTS" => Some(Reason::BindingLegalCommitments),
            "LEGAL_OBSTACLES" => Some(Reason::LegalObstacles),
            "DISCLOSURE_DETRIMENTAL" => Some(Reason::DisclosureDetrimental),
            "DETRIMENT_NOT_EXCLUDED" => Some(Reason::DetrimentNotExcluded),
            _ => None,
        }
    }

    /// Its text.
    pub fn text(self) -> &'static str
        ensures { result.now ≡ reason_text self }
    {
        match self {
            Reason::NaturalPersons => "NATURAL_PERSONS",
            Reason::NonConsolidating => "NON_CONSOLIDATING",
            Reason::NoKnownPerson => "NO_KNOWN_PERSON",
            Reason::NoLei => "NO_LEI",
            Reason::NonPublic => "NON_PUBLIC",
            Reason::ConsentNotObtained => "CONSENT_NOT_OBTAINED",
            Reason::BindingLegalCommitments => "BINDING_LEGAL_COMMITMENTS",
            Reason::LegalObstacles => "LEGAL_OBSTACLES",
            Reason::DisclosureDetrimental => "DISCLOSURE_DETRIMENTAL",
            Reason::DetrimentNotExcluded => "DETRIMENT_NOT_EXCLUDED",
        }
    }
}

/// What happens to a legal entity. This project's profile.
#[derive(Clone, Copy, Debug, PartialEq, Eq, Hash)]
pub enum EventType {
    ChangeLegalName,
    ChangeLegalAddress,
    ChangeHqAddress,
    ChangeLegalForm,
    Merger,
    Liquidation,
    Dissolution,
    Bankruptcy,
}

impl EventType {
    ghost use Rattle.lei_shapes.specs.Lists.{IsReadBy, event_type_text, event_type_of};

    /// The value with this text, byte for byte.
    pub fn read(text: &str) -> Option<EventType>
        ensures reads { IsReadBy event_type_text text.now result }
        ensures value { result ≡ event_type_of text.now }
    {
        match text {
            "CHANGE_LEGAL_NAME" => Some(EventType::ChangeLegalName),
            "CHANGE_LEGAL_ADDRESS" => Some(EventType::ChangeLegalAddress),
            "CHANGE_HQ_ADDRESS" => Some(EventType::ChangeHqAddress),
            "CHANGE_LEGAL_FORM" => Some(EventType::ChangeLegalForm),
            "MERGER" => Some(EventType::Merger),
            "LIQUIDATION" => Some(EventType::Liquidation),
            "DISSOLUTION" => Some(EventType::Dissolution),
            "BANKRUPTCY" => Some(EventType::Bankruptcy),
            _ => None,
        }
    }

    /// Its text.
    pub fn text(self) -> &'static str
        ensures { result.now ≡ event_type_text self }
    {
        match self {
            EventType::ChangeLegalName => "CHANGE_LEGAL_NAME",
            EventType::ChangeLegalAddress => "CHANGE_LEGAL_ADDRESS",
            EventType::ChangeHqAddress => "CHANGE_HQ_ADDRESS",
            EventType::ChangeLegalForm => "CHANGE_LEGAL_FORM",
            EventType::Merger => "MERGER",
            EventType::Liquidation => "LIQUIDATION",
            EventType::Dissolution => "DISSOLUTION",
            EventType::Bankruptcy => "BANKRUPTCY",
        }
    }
}

/// How far a legal entity's event has come. This project's profile.
#[derive(Clone, Copy, Debug, PartialEq, Eq, Hash)]
pub enum EventStatus {
    InProgress,
    Completed,
    WithdrawnCancelled,
}

impl EventStatus {
    ghost use Rattle.lei_shapes.specs.Lists.{IsReadBy, event_status_text, event_status_of};

    /// The value with this text, byte for byte.
    pub fn read(text: &str) -> Option<EventStatus>
        ensures reads { IsReadBy event_status_text text.now result }
        ensures value { result ≡ event_status_of text.now }
    {
        match text {
            "IN_PROGRESS" => Some(EventStatus::InProgress),
            "COMPLETED" => Some(EventStatus::Completed),
            "WITHDRAWN_CANCELLED" => Some(EventStatus::WithdrawnCancelled),
            _ => None,
        }
    }

    /// Its text.
    pub fn text(self) -> &'static str
        ensures { result.now ≡ event_status_text self }
    {
        match self {
            EventStatus::InProgress => "IN_PROGRESS",
            EventStatus::Completed => "COMPLETED",
            EventStatus::WithdrawnCancelled => "WITHDRAWN_CANCELLED",
        }
    }
}
