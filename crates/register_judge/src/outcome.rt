//! The results of judging the items of an upload.
use lei_records::{CellKey, Check, Reads, Writes};
use lei_values::{List, NoMemory};
use std::alloc::AllocError;

/// The result for an item.
#[derive(Debug, PartialEq, Eq, Drop)]
pub enum Verdict {
    Accepted,
    /// The first of its checks that fails.
    Rejected(Check),
}

/// The result for the items of an upload.
#[derive(Debug, PartialEq, Eq, Drop)]
pub struct Outcome {
    /// One for each item, in their order.
    pub verdicts: List<Verdict>,
    /// The keys of the accepted items, each with its item, or with none if it is a withdrawal.
    pub writes: Writes,
    /// The number of records, accepted or not, that reached the check of room, C20, while no record with their LEI was
    /// held.
    pub new_records: u32,
    /// The cells that the items needed, with what the view had in them. Empty if cells weren't listed.
    pub reads: Reads,
}

/// The outcome of an upload's items that were judged before its turn, for one day.
#[derive(Drop)]
pub struct Plan {
    pub outcome: Outcome,
    /// The day, counted from 1970-01-01.
    pub today: i32,
}

/// Why there is no outcome.
#[derive(Debug, PartialEq, Eq, Drop)]
pub enum JudgeStop {
    /// The view lacks a cell that an item needs.
    NeedCell(CellKey),
    NoMemory,
}

impl From<AllocError> for JudgeStop {
    ghost use Rattle.std.specs.Prelude.{◌≡◌};
    ghost use Rattle.register_judge.specs.declared.outcome.JudgeStop.{JudgeStop};

    ghost from_gives = { λ fault stop. stop ≡ JudgeStop.NoMemory };

    fn from(_: AllocError) -> Self {
        JudgeStop::NoMemory
    }
}

impl From<NoMemory> for JudgeStop {
    ghost use Rattle.std.specs.Prelude.{◌≡◌};
    ghost use Rattle.register_judge.specs.declared.outcome.JudgeStop.{JudgeStop};

    ghost from_gives = { λ fault stop. stop ≡ JudgeStop.NoMemory };

    fn from(_: NoMemory) -> Self {
        JudgeStop::NoMemory
    }
}
