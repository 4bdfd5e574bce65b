//! Groups of entities, and reports on them.
ghost use Rattle.std.specs.Prelude.{◌≡◌, IfErr, IfOk, IsErrOf, IsSome, None, OnOk, is_some};
ghost use Rattle.register_words.specs.declared.sheets.Sheet.{Sheet as DeclaredSheet};
ghost use Rattle.copy_csv.specs.Rows.{AreRows};
ghost use Rattle.group_reports.specs.declared.faults.ReportFault.{ReportFault as Reporting};
ghost use Rattle.group_reports.specs.Links.{IsGroupFault, IsGroupTable, head_publication, name_at};
ghost use Rattle.group_reports.specs.Reports as spec;

use crate::faults::{GroupFault, ReportFault};
use crate::links::Links;
use crate::names::Names;
use crate::opening::check;
use crate::reports::put_disagreements;
use crate::texts::{group_text, lone_text};
use copy_csv::CopyRead;
use lei_values::{Bytes, NoMemory};
use std::alloc::Global;
use std::marker::Model;

/// Which entity belongs to which group, by a golden copy of `lei` and one of `rr`. Contracts see the LEI and the name
/// of each row of `lei`, and each row of `rr` as a link.
#[derive(Drop)]
pub struct Groups {
    alloc: Global,
    names: Names,
    links: Links,
}

impl Model for Groups {
    ghost use Rattle.group_reports.specs.Links.{GroupTable};

    ghost Value = { GroupTable };

    ghost view = { λ groups. record { names = groups.names; links = groups.links.links } };
}

impl Groups {
    /// The groups of a copy of `lei` and one of `rr` that were read, both in the same form.
    pub fn open(alloc: Global, lei: &CopyRead, rr: &CopyRead) -> Result<Self, GroupFault>
        requires lei { AreRows DeclaredSheet.Lei lei.now.rows }
        requires rr { AreRows DeclaredSheet.Rr rr.now.rows }
        requires form { is_some lei.now.head ≡ is_some rr.now.head }
        ensures rows { IfOk result (λ groups. IsGroupTable lei.now.rows rr.now.rows groups) }
        ensures publication { OnOk result (head_publication lei.now.head ≡ head_publication rr.now.head) }
        ensures refusal { IfErr result (IsGroupFault lei.now.head rr.now.head) }
    {
        check(&lei.head, &rr.head)?;
        let names = Names::of(alloc, lei.rows.as_slice())?;
        let links = Links::of(alloc, &rr.rows)?;
        Ok(Groups {
            alloc,
            names,
            links,
        })
    }

    /// The report on the group of an entity: which entities belong to it by direct parents. It also shows for which of
    /// them, the entity included, the reported ultimate parent differs.
    pub fn report(&self, who: &str) -> Result<Bytes, ReportFault>
        ensures text { IfOk result (λ bytes. bytes ≡ spec.group_report self.now who.now) }
        ensures known { OnOk result (IsSome (name_at self.now.names who.now)) }
        ensures unknown { IsErrOf result Reporting.LeiUnknown → name_at self.now.names who.now ≡ None }
    {
        if self.names.name_at(who).is_none() {
            return Err(ReportFault::LeiUnknown);
        }
        let bytes = match self.links.find(who) {
            Some(root) => group_text(self.alloc, &self.names, &self.links, root)?,
            None => lone_text(self.alloc, &self.names, &self.links, who)?,
        };
        Ok(bytes)
    }

    /// The disagreements of all entities that a relationship starts at.
    #[tactic(auto, unfolding(crate::specs::Reports::disagreement_report))]
    pub fn disagreements(&self) -> Result<Bytes, NoMemory>
        ensures { IfOk result (λ bytes. bytes ≡ spec.disagreement_report self.now) }
    {
        let mut out = Vec::new(self.alloc);
        put_disagreements(&mut out, &self.links, self.links.starts())?;
        Ok(Bytes::from(out))
    }
}
