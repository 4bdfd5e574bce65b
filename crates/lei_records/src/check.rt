//! Why an item is rejected, and how that is reported.
ghost use Rattle.std.specs.Prelude.{◌≡◌, Some, option_map};
ghost use Rattle.lei_records.specs.Checks;
ghost use Rattle.lei_records.specs.Checks.{IsCheckNumber, check_name, check_text};

use crate::numbers::*;
use lei_code::Lei;
use lei_shapes::RecordStatus;
use lei_values::Text;
use std::fmt;
use std::marker::Model;

/// Why an item is rejected: the first of its checks that fails. Its number is that of a check.
#[derive(Debug, PartialEq, Eq, Drop)]
pub struct Check {
    /// The check's number, such as [`FIELD_UNKNOWN`].
    pub code: u8,
    pub detail: Detail,
}

impl Model for Check {
    ghost use Rattle.lei_records.specs.Checks.{FailedCheck, IsCheckNumber};

    ghost Value = { FailedCheck };

    ghost view = { λ check. record { number = check.code; detail = check.detail } };

    ghost invariant = { λ check. IsCheckNumber check.code };

    ghost inverse = { λ check. record { code = check.number; detail = check.detail } };
}

/// What a failed check names.
#[derive(Debug, PartialEq, Eq, Drop)]
pub enum Detail {
    None,
    /// A field's name, or a name that isn't a field's.
    Field(Text),
    /// The status of a held record.
    Status(RecordStatus),
    /// An LEI that the item conflicts with.
    Code(Lei),
}

impl Check {
    /// The check's number and name, such as `C05 STATUS_ENTITY`.
    pub fn name(&self) -> &'static str
        ensures { check_name self.now.number ≡ Some result.now }
    {
        name_of(self.code)
    }
}

impl Detail {
    /// What is named, as a text: a field's name, a status or an LEI.
    pub fn text(&self) -> Option<&str>
        ensures { option_map (λ text. text.now) result ≡ Checks.detail_text self.now }
    {
        match self {
            Detail::None => None,
            Detail::Field(name) => Some(name.as_str()),
            Detail::Status(status) => Some(status.text()),
            Detail::Code(lei) => Some(lei.as_str()),
        }
    }
}

impl fmt::Display for Check {
    ghost output = { check_text };

    fn fmt<W: fmt::Write>(&self, f: &mut fmt::Formatter<W>) -> fmt::Result {
        f.write_str(self.name())?;
        match self.detail.text() {
            Some(named) => write!(f, " {named}"),
            None => Ok(()),
        }
    }
}

// The name of the check with this number.
fn name_of(number: u8) -> &'static str
    requires { IsCheckNumber number }
    ensures { check_name number ≡ Some result.now }
{
    match number {
        FIELD_UNKNOWN => "C01 FIELD_UNKNOWN",
        FIELD_MISSING => "C02 FIELD_MISSING",
        FIELD_SHAPE => "C03 FIELD_SHAPE",
        CHECK_DIGITS => "C04 CHECK_DIGITS",
        STATUS_ENTITY => "C05 STATUS_ENTITY",
        DATES_ORDER => "C06 DATES_ORDER",
        DATE_FUTURE => "C07 DATE_FUTURE",
        SUCCESSOR_SHAPE => "C08 SUCCESSOR_SHAPE",
        MANAGER_NOT_UPLOADER => "C09 MANAGER_NOT_UPLOADER",
        NOT_ISSUED => "C10 NOT_ISSUED",
        TRANSITION => "C11 TRANSITION",
        NOT_MANAGER => "C12 NOT_MANAGER",
        INITIAL_DATE_CHANGED => "C13 INITIAL_DATE_CHANGED",
        UPDATE_EARLIER => "C14 UPDATE_EARLIER",
        RENEWAL_DATE => "C15 RENEWAL_DATE",
        SUCCESSOR_UNKNOWN => "C16 SUCCESSOR_UNKNOWN",
        SUCCESSOR_CYCLE => "C17 SUCCESSOR_CYCLE",
        SUCCESSOR_CHAIN_LONG => "C18 SUCCESSOR_CHAIN_LONG",
        AUTHORITY_KEY_TAKEN => "C19 AUTHORITY_KEY_TAKEN",
        REGISTER_FULL => "C20 REGISTER_FULL",
        EVENT_INCOMPLETE => "C21 EVENT_INCOMPLETE",
        EVENT_DATES => "C22 EVENT_DATES",
        SAME_NODE => "C30 SAME_NODE",
        PERIOD_ORDER => "C31 PERIOD_ORDER",
        START_UNKNOWN => "C32 START_UNKNOWN",
        END_UNKNOWN => "C33 END_UNKNOWN",
        START_NOT_MANAGED => "C34 START_NOT_MANAGED",
        START_CATEGORY => "C35 START_CATEGORY",
        RELATION_TRANSITION => "C36 RELATION_TRANSITION",
        ACTIVE_TAKEN => "C37 ACTIVE_TAKEN",
        PARENT_CYCLE => "C38 PARENT_CYCLE",
        PARENT_CHAIN_LONG => "C39 PARENT_CHAIN_LONG",
        EXCEPTION_STANDS => "C40 EXCEPTION_STANDS",
        LEI_UNKNOWN => "C50 LEI_UNKNOWN",
        NOT_MANAGED => "C51 NOT_MANAGED",
        PARENT_STANDS => "C52 PARENT_STANDS",
        NOTHING_TO_WITHDRAW => "C53 NOTHING_TO_WITHDRAW",
        _ => unreachable!(),
    }
}
