//! The shelf, which publishes and returns copies and deltas.
ghost use Rattle.std.specs.Prelude.{◌≡◌, ◌+◌, ◌<◌, ◌≤◌, ◌++◌, ◌∷◌, ◌↔◌, ◌⊎◌, ◌&&◌, [], ℕ, false, None, Some, Ok, Err, List as Items, MatchResult, drop, map, IfErr, IfOk, IsErrOf, IsSome, OnErr, OnOk, length, option_map};
ghost use Rattle.std.specs.List.{All};
ghost use Rattle.register_words.specs.declared.sheets.Sheet.{Sheet as DeclaredSheet};
ghost use Rattle.copy_csv.specs.declared.rows.Change.{Change};
ghost use Rattle.copy_csv.specs.Rows.{IsChangeOf};
ghost use Rattle.copy_forms.specs.Files.{delta, may_be_wide, rendered_change};
ghost use Rattle.copy_forms.specs.Trails.{Publication, Trail, copy_of, delta_between, is_wide_in, keys_in_order};
ghost use Rattle.golden_shelf.specs.declared.fault.ShelfFault.{ShelfFault as DeclaredFault};
ghost use Rattle.golden_shelf.specs.Bases.{base_in, moments_in, trail_moments};
ghost use Rattle.golden_shelf.specs.Changes.{AreOwnChanges, ArePlain, IsIssued};
ghost use Rattle.golden_shelf.specs.Deltas.{changed_in, shown_in};
ghost use Rattle.golden_shelf.specs.Shelves.{KeepsTrail, MayFollow, empty_shelf, latest, latest_rows, lines_of};

use crate::bases::base_number;
use crate::deltas::changes_of;
use crate::fault::ShelfFault;
use crate::issue::Issue;
use crate::notes::{keys_of, render_all, split_notes};
use crate::sides::Sides;
use crate::touched::touched;
use copy_csv::{Form, Head, Sheet};
use copy_forms::{ItemRow, copy_text, delta_text};
use lei_records::RowKey;
use lei_shapes::Moment;
use lei_values::{Bytes, List, NoMemory};
use register_words::Base;
use std::alloc::Global;
use std::marker::Model;
use std::sync::ledger::Ledger;
use std::thread::Threads;
use worker_pool::Steps;

/// Publications one after another; the latest can be copied. Each row is rendered once, when it is published. Contracts
/// see what is kept for the publications. They also see what was kept before the last one, if that can be taken back.
#[derive(Drop)]
pub struct Shelf {
    alloc: Global,
    issues: Vec<Issue>,
    sides: Sides,
    // Whether the last publication can be taken back.
    undoable: bool,
}

impl Model for Shelf {
    ghost use Rattle.std.specs.Prelude.{◌≤◌, None, Some, if◌then◌else◌, length};
    ghost use Rattle.golden_shelf.specs.Shelves.{ShelfState};
    ghost use Rattle.golden_shelf.specs.Parts.{before_of, kept_parts};

    ghost Value = { ShelfState };

    ghost view = { λ s. record {
      now = kept_parts s.issues.items s.sides;
      before = if s.undoable then Some (before_of s.issues.items s.sides) else None;
    } };

    ghost invariant = { λ s. length s.issues.items ≤ 1_000_000 };
}

impl Shelf {
    /// A shelf without publications.
    pub fn new(alloc: Global) -> Result<Self, NoMemory>
        ensures kept { IfOk result (λ shelf. shelf.now ≡ empty_shelf) }
        ensures keeps { IfOk result (λ shelf. KeepsTrail [] shelf.now) }
        ensures before { IfOk result (λ shelf. shelf.before ≡ None) }
    {
        Ok(Shelf {
            alloc,
            issues: Vec::new(alloc),
            sides: Sides::new(alloc),
            undoable: false,
        })
    }

    /// Publishes the rows of the latest publication with these changes. A change is a key with its current row, or with
    /// none if it no longer has a row. Each change is a step. No other row is rendered, not even if this publication is
    /// the first wide one. The conditions are: keys are those of their rows and rise within each sheet, there were
    /// fewer than 1,000,000 publications, and the width may follow. After a wide publication only wide ones follow, and
    /// a narrow one has nothing in the columns that only wide files have. On an error (out of memory) everything stays
    /// as it was, including what can be taken back.
    pub fn publish<L: Ledger, R: Threads + Sync>(
        &mut self,
        rt: &R,
        moment: Moment,
        wide: bool,
        changes: &[(RowKey, Option<ItemRow>)],
        steps: &mut Steps<L>,
    ) -> Result<(), NoMemory>
        requires changes { AreOwnChanges changes.now }
        requires few { length self.old.now.issues < 1_000_000 }
        requires follows { MayFollow self.old.now.issues wide }
        requires plain { wide ≡ false → ArePlain changes.now }
        ensures next { OnOk result ((trail : Trail) (next : Publication) → KeepsTrail trail self.old.now
            → IsIssued (latest_rows trail) moment wide changes.now next
            → KeepsTrail (trail ++ next ∷ []) self.new.now) }
        ensures before { OnOk result (self.new.before ≡ Some self.old.now) }
        ensures count { OnOk result (length self.new.now.issues ≡ length self.old.now.issues + 1) }
        ensures err { OnErr result (self.new ≡ self.old) }
        ensures steps { steps.new ≤ steps.old + length changes.now }
        ensures steps_stay { steps.old ≤ steps.new }
    {
        let alloc = self.alloc;
        // Called for its contract: a moment is within the range of moments.
        let _ = moment.seconds();
        let notes = render_all(rt, alloc, changes, steps)?;
        let parts = split_notes(alloc, notes)?;
        let keys = keys_of(alloc, changes)?;
        self.issues.reserve(1)?;
        self.sides.make_room(&parts)?;
        self.sides.put(parts);
        self.issues.push_reserved(Issue { moment, wide, keys });
        self.undoable = true;
        Ok(())
    }

    /// Takes back the last publication, without allocating memory. There must be something to take back.
    pub fn undo(&mut self)
        requires { IsSome self.old.before }
        ensures now { Some self.new.now ≡ self.old.before }
        ensures before { self.new.before ≡ None }
    {
        self.sides.take_back();
        let _ = self.issues.pop();
        self.undoable = false;
    }

    /// The copy of a sheet in the latest publication, in its width, joined from texts that are kept.
    pub fn copy(&self, sheet: Sheet, form: Form) -> Result<Bytes, ShelfFault>
        ensures nothing { IsErrOf result DeclaredFault.NothingPublished ↔ (self.now.now.issues ≡ []) }
        ensures copy { IfOk result (λ bytes. (trail : Trail) (last : Publication)
            → KeepsTrail trail self.now.now
            → latest trail ≡ Some last → bytes ≡ copy_of (length trail) last sheet form) }
        ensures faults { IfErr result
            (λ fault. (fault ≡ DeclaredFault.NothingPublished) ⊎ (fault ≡ DeclaredFault.NoMemory)) }
    {
        let Some(latest) = self.latest() else {
            return Err(ShelfFault::NothingPublished);
        };
        let head = Head {
            moment: latest.1,
            publication: latest.0,
            from: 0,
        };
        let wide = self.is_wide(sheet, form);
        match copy_text(
            self.alloc,
            sheet,
            form,
            wide,
            &head,
            self.sides.texts(sheet),
        ) {
            Ok(text) => Ok(text),
            Err(NoMemory) => Err(ShelfFault::NoMemory),
        }
    }

    /// The delta of a sheet from the publication that a base names to the latest one. It has the latter's width, and is
    /// joined from texts that are kept. The cost is that of the keys that changed since then, of sorting them, and of
    /// the result. A refusal doesn't allocate memory.
    pub fn delta(&self, base: Base, sheet: Sheet, form: Form) -> Result<Bytes, ShelfFault>
        ensures refused { (trail : Trail) (fault : DeclaredFault) → KeepsTrail trail self.now.now
            → base_in (trail_moments trail) base ≡ Err fault → result ≡ Err fault }
        ensures given { (trail : Trail) (from : ℕ) (last : Publication) → KeepsTrail trail self.now.now
            → latest trail ≡ Some last
            → base_in (trail_moments trail) base ≡ Ok from
            → MatchResult result (λ bytes. bytes ≡ delta_between trail from (length trail) last sheet form)
            (λ fault. fault ≡ DeclaredFault.NoMemory) }
        ensures faults { IfErr result (λ fault. (fault ≡ DeclaredFault.NoMemory)
            ⊎ (base_in (moments_in self.now.now.issues) base ≡ Err fault)) }
    {
        match base_number(self.issues.as_slice(), base) {
            Ok(from) => self.delta_from(from, sheet, form),
            Err(fault) => Err(fault),
        }
    }

    // The delta from the publication with this number to the latest one.
    fn delta_from(&self, from: u32, sheet: Sheet, form: Form) -> Result<Bytes, ShelfFault>
        requires some { self.now.now.issues ≡ [] → ⊥ }
        requires from { from ≤ length self.now.now.issues }
        ensures given { IfOk result (λ bytes. (trail : Trail) (last : Publication)
            → KeepsTrail trail self.now.now
            → latest trail ≡ Some last → bytes ≡ delta_between trail from (length trail) last sheet form) }
        ensures faults { IfErr result (λ fault. fault ≡ DeclaredFault.NoMemory) }
    {
        let Some(newest) = self.latest() else {
            unreachable!();
        };
        let head = Head {
            moment: newest.1,
            publication: newest.0,
            from,
        };
        let wide = self.is_wide(sheet, form);
        match self.delta_with_head(sheet, form, wide, &head) {
            Ok(text) => Ok(text),
            Err(NoMemory) => Err(ShelfFault::NoMemory),
        }
    }

    // The delta in this width, joined for the keys that changed after the publication that the head names as its base.
    fn delta_with_head(
        &self,
        sheet: Sheet,
        form: Form,
        wide: bool,
        head: &Head,
    ) -> Result<Bytes, NoMemory>
        requires { head.now.from ≤ length self.now.now.issues }
        ensures { IfOk result (λ bytes. (changes : Items Change) → All (IsChangeOf sheet) changes
            → map (shown_in sheet (lines_of self.now.now sheet))
            (keys_in_order (changed_in sheet (drop head.now.from self.now.now.issues)))
            ≡ map rendered_change changes → bytes ≡ delta sheet form wide head.now changes) }
    {
        let behind = &self.issues.as_slice()[head.from as usize..];
        let keys = touched(self.alloc, behind, sheet)?;
        let side = self.sides.of(sheet);
        let changes = changes_of(self.alloc, sheet, side, keys.as_slice())?;
        delta_text(self.alloc, sheet, form, wide, head, changes.as_slice())
    }

    // Whether the latest publication's files of this sheet and form are wide.
    fn is_wide(&self, sheet: Sheet, form: Form) -> bool
        ensures { (trail : Trail) (last : Publication) → KeepsTrail trail self.now.now
            → latest trail ≡ Some last
            → result ≡ is_wide_in last sheet form }
    {
        match self.issues.as_slice().last() {
            Some(issue) => width_in(issue.wide, sheet, form),
            None => false,
        }
    }

    /// The numbers of records, relationships and exceptions in the latest publication.
    pub fn counts(&self) -> (u64, u64, u64)
        ensures lei { (trail : Trail) → KeepsTrail trail self.now.now
            → result.0 ≡ length (latest_rows trail DeclaredSheet.Lei) }
        ensures rr { (trail : Trail) → KeepsTrail trail self.now.now
            → result.1 ≡ length (latest_rows trail DeclaredSheet.Rr) }
        ensures repex { (trail : Trail) → KeepsTrail trail self.now.now
            → result.2 ≡ length (latest_rows trail DeclaredSheet.Repex) }
    {
        (
            self.sides.lei.len() as u64,
            self.sides.rr.len() as u64,
            self.sides.repex.len() as u64,
        )
    }

    /// The number and the moment of the latest publication, if there is one.
    pub fn latest(&self) -> Option<(u32, Moment)>
        ensures latest { (trail : Trail) → KeepsTrail trail self.now.now
            → result ≡ option_map (λ last. (length trail, last.moment)) (latest trail) }
        ensures none { (result ≡ None) ↔ (self.now.now.issues ≡ []) }
    {
        let issue = self.issues.as_slice().last()?;
        Some((self.issues.len() as u32, issue.moment))
    }
}

// Whether the files of this sheet and form are wide in a publication of this width.
fn width_in(wide: bool, sheet: Sheet, form: Form) -> bool
    ensures { result ≡ (wide && may_be_wide sheet form) }
{
    wide && matches!((sheet, form), (Sheet::Lei, Form::Csv))
}
