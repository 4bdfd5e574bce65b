//! The office as the value of a turnstile.
ghost use Rattle.std.specs.Prelude.{◌≡◌};
ghost use Rattle.register_history.specs.Kept.{StaysUntold};
ghost use Rattle.lei_hall.specs.Passes.{ReportsSo, numbers_of};

use crate::answers::Told;
use lei_keeper::Keeper;
use lei_office::Office;
use lei_values::KeptEntry;
use std::marker::Model;
use std::snapshot::Snapshot;
use turnstile::Tally;

/// An office in the slot of a turnstile. It represents its history and its keeper's count of faults. Its limits stay,
/// and so does whether its keeper told its tables when the hall was opened.
#[derive(Drop)]
pub struct Slot<K: Keeper> {
    pub office: Office<K>,
    // The office that the hall was opened with. It takes no bytes.
    pub opened: Snapshot<Office<K>>,
}

impl<K: Keeper> Model for Slot<K> {
    ghost use Rattle.register_history.specs.Kept.{StaysUntold};
    ghost use Rattle.lei_hall.specs.Passes.{SlotView};

    ghost Value = { SlotView K };

    ghost view = { λ s. record { office = s.office; opened = s.opened.value } };

    ghost invariant = { λ s. StaysUntold (K.tables s.opened.value.keeper) (K.tables s.office.keeper) };
}

impl<K: Keeper> Slot<K> {
    /// The slot of an office that no request was put to yet.
    pub fn new(office: Office<K>) -> Self
        ensures office { result.office ≡ office }
        ensures opened { result.opened ≡ office }
    {
        let opened = Snapshot::of(&office);
        Slot { office, opened }
    }
}

impl<K: Keeper> Tally for Slot<K> {
    type Entry = KeptEntry;

    type Told = Told;

    ghost entries = { λ slot. slot.office.office.history };

    ghost faults = { λ slot. K.faults slot.office.keeper };

    ghost stays = { λ slot. numbers_of slot.office.office.limits (K.tables slot.opened.keeper) };

    ghost first = { 1 };

    ghost tells = { ReportsSo };
}

/// The office of a slot.
pub fn office_in<K: Keeper>(slot: Slot<K>) -> Office<K>
    ensures office { result ≡ slot.office }
    ensures untold { StaysUntold (K.tables slot.opened.keeper) (K.tables result.keeper) }
{
    let Slot { office, .. } = slot;
    office
}
