//! Laws of what commands do, each stated as the contract of a function that does nothing.
ghost use Rattle.std.specs.Prelude.{ℕ};
ghost use Rattle.copy_forms.specs.Trails.{DeltasLeadOn};
ghost use Rattle.file_commands.specs.Applying.{AppliedCopiesLeadOn};
ghost use Rattle.file_commands.specs.Mirroring.{AnswersMirror, ShowsTrail};
ghost use Rattle.file_commands.specs.Sides.{Sides};
ghost use Rattle.register_history.specs.Legal.{Legal};
ghost use Rattle.register_history.specs.Publications.{trail};
ghost use Rattle.register_history.specs.State.{OfficeState};

/// For a legal history, take the copy of a publication and the delta from it to the same or a later one. The copy
/// patched by the delta is the copy of that one, byte for byte.
pub fn deltas_of_histories_lead_on()
    ensures { (office : OfficeState) → Legal office → DeltasLeadOn (trail office) }
{}

/// The same for the command `apply`: that copy is its only outcome for these two files.
pub fn applied_copies_lead_on()
    ensures { (office : OfficeState) → Legal office → AppliedCopiesLeadOn (trail office) }
{}

/// For a legal history, suppose that what a mirror is sent as packets are copies and deltas of its publications, or no
/// packets at all. Then each file that is shown is the copy of the publication that is shown at that time, byte for
/// byte.
pub fn mirrors_show_copies_of_histories()
    ensures { (office : OfficeState) → Legal office → (before after : Sides) (status : ℕ)
        → (answers : AnswersMirror before after status)
        → ShowsTrail (trail office) before after answers.last answers.ended answers.serves.bytes }
{}
