//! The cells that are read while items are judged.
ghost use Rattle.std.specs.Prelude.{◌≡◌, ◌++◌, ◌∷◌, [], if◌then◌else◌, map, IsTrue, OnOk};
ghost use Rattle.lei_records.specs.declared.view.CellKey.{CellKey};
ghost use Rattle.lei_records.specs.Cells.{lei_in, successor_in, successors_in};
ghost use Rattle.lei_records.specs.Relations.{end_in};
ghost use Rattle.lei_records.specs.Walks.{walk_members};
ghost use Rattle.successor_rules.specs.Walks.{known_next};
ghost use Rattle.relation_rules.specs.Checks.{is_direct_parent};
ghost use Rattle.cell_reads.specs.Needs.{level_walk, needs, parent_walk, record_walk, successor_walk, walk_cells};
ghost use Rattle.cell_reads.specs.Notes.{IsListedKey, NotesCells};

use crate::cells::found_in;
use crate::naming::push_names;
use lei_code::Lei;
use lei_records::{CellKey, CellSeen, Item, Readied, Reads, Record, Relation, Rules, Seen, View};
use lei_shapes::RelationType;
use lei_values::{List, NoMemory};
use relation_rules::{ParentChain, is_direct};
use std::alloc::Global;
use std::collections::BTreeMap;
use std::marker::Model;
use successor_rules::{Chain, SuccessorBranches, SuccessorChain, reach};

// The most members of a walk whose cells are noted.
const MOST_MEMBERS: u8 = 200;

/// The cells that were read, each with what it had. Contracts see them as a list.
#[derive(Drop)]
pub struct Noted {
    reads: Vec<(CellKey, CellSeen)>,
    // The index in `reads` at which the cell of a record, or of the active relationship with a start and a type, may
    // be. An index is checked before it is used. The cells of the other kinds are listed each time they are noted.
    records: BTreeMap<Lei, usize>,
    ends: BTreeMap<(Lei, &'static str), usize>,
}

impl Model for Noted {
    ghost use Rattle.cell_reads.specs.Reads.{Listed};

    ghost Value = { Listed };

    ghost view = { λ noted. noted.reads.items };
}

impl Noted {
    /// An empty list.
    pub fn new(alloc: Global) -> Self
        ensures { result ≡ [] }
    {
        Noted {
            reads: Vec::new(alloc),
            records: BTreeMap::new(alloc),
            ends: BTreeMap::new(alloc),
        }
    }

    /// The list of the cells.
    pub fn into_reads(self) -> Reads
        ensures { result ≡ self }
    {
        List::from(self.reads)
    }

    // Whether the cell with this key is listed. It may be `false` for a listed cell whose index isn't known.
    fn lists(&self, key: &CellKey) -> bool
        ensures { IsTrue result → IsListedKey self.now key.now }
    {
        match self.place(key) {
            Some(place) => is_at(self.reads.as_slice(), place, key),
            None => false,
        }
    }

    fn place(&self, key: &CellKey) -> Option<usize> {
        match key {
            CellKey::Rec(lei) => self.records.get(lei).copied(),
            CellKey::Act(start, kind) => self.ends.get(&(*start, kind.text())).copied(),
            _ => None,
        }
    }

    fn set_place(&mut self, key: &CellKey, place: usize) -> Result<(), NoMemory>
        ensures { self.new ≡ self.old }
    {
        match key {
            CellKey::Rec(lei) => set_record(&mut self.records, *lei, place),
            CellKey::Act(start, kind) => set_end(&mut self.ends, *start, *kind, place),
            _ => Ok(()),
        }
    }

    fn push(&mut self, key: CellKey, found: CellSeen) -> Result<(), NoMemory>
        ensures { OnOk result (self.new ≡ self.old ++ (key, found) ∷ []) }
    {
        let place = self.reads.len();
        self.set_place(&key, place)?;
        self.reads.push((key, found))?;
        Ok(())
    }
}

fn is_at(reads: &[(CellKey, CellSeen)], place: usize, key: &CellKey) -> bool
    ensures { IsTrue result → IsListedKey reads.now key.now }
{
    if place >= reads.len() {
        return false;
    }
    reads[place].0 == *key
}

fn set_record(records: &mut BTreeMap<Lei, usize>, lei: Lei, place: usize) -> Result<(), NoMemory> {
    match records.insert(lei, place) {
        Ok(_) => Ok(()),
        Err(_) => Err(NoMemory),
    }
}

fn set_end(
    ends: &mut BTreeMap<(Lei, &'static str), usize>,
    start: Lei,
    kind: RelationType,
    place: usize,
) -> Result<(), NoMemory> {
    match ends.insert((start, kind.text()), place) {
        Ok(_) => Ok(()),
        Err(_) => Err(NoMemory),
    }
}

/// Notes the cells that an item needs by the rules and by the answers of `over`, each with what `below` has in it. So
/// if `over` is a view with accepted items on top of `below`, what is noted is what the view below has. A cell that
/// `below` lacks isn't noted. After an `Err`, some of the cells may be noted.
pub fn note_needs<V: View, W: View>(
    alloc: Global,
    rules: Rules,
    below: &V,
    over: &W,
    noted: &mut Noted,
    item: &Readied,
) -> Result<(), NoMemory>
    ensures { OnOk result (NotesCells (V.cells below.now) noted.old noted.new
        (needs rules (W.cells over.now) item.now)) }
{
    let mut keys = Vec::new(alloc);
    push_names(alloc, &mut keys, item)?;
    note_all(below, noted, keys)?;
    note_walk_of(rules, below, over, noted, item)
}

fn note_all<V: View>(view: &V, noted: &mut Noted, keys: Vec<CellKey>) -> Result<(), NoMemory>
    ensures { OnOk result (NotesCells (V.cells view.now) noted.old noted.new keys.items) }
{
    for key in keys {
        note(view, noted, key)?;
    }
    Ok(())
}

fn note<V: View>(view: &V, noted: &mut Noted, key: CellKey) -> Result<(), NoMemory>
    ensures { OnOk result (NotesCells (V.cells view.now) noted.old noted.new (key ∷ [])) }
{
    if noted.lists(&key) {
        return Ok(());
    }
    match found_in(view, &key) {
        Some(found) => noted.push(key, found),
        None => Ok(()),
    }
}

fn note_walk_of<V: View, W: View>(
    rules: Rules,
    below: &V,
    over: &W,
    noted: &mut Noted,
    item: &Readied,
) -> Result<(), NoMemory>
    ensures { OnOk result (NotesCells (V.cells below.now) noted.old noted.new
        (walk_cells rules (W.cells over.now) item.now)) }
{
    match item {
        Readied::Good(Item::Record(item)) => note_successors(rules, below, over, noted, item),
        Readied::Good(Item::Relation(item)) => note_parents(below, over, noted, item),
        _ => Ok(()),
    }
}

fn note_successors<V: View, W: View>(
    rules: Rules,
    below: &V,
    over: &W,
    noted: &mut Noted,
    item: &Record,
) -> Result<(), NoMemory>
    ensures { OnOk result (NotesCells (V.cells below.now) noted.old noted.new
        (record_walk rules (W.cells over.now) item.now)) }
{
    match rules {
        Rules::First => note_chain(below, over, noted, item),
        Rules::Second | Rules::Third => note_levels(below, over, noted, item),
    }
}

fn note_chain<V: View, W: View>(
    below: &V,
    over: &W,
    noted: &mut Noted,
    item: &Record,
) -> Result<(), NoMemory>
    ensures { OnOk result (NotesCells (V.cells below.now) noted.old noted.new
        (successor_walk (W.cells over.now) (successor_in item.now))) }
{
    match item.successor() {
        Some(first) => note_walk(below, &SuccessorChain { view: over }, noted, first),
        None => Ok(()),
    }
}

fn note_levels<V: View, W: View>(
    below: &V,
    over: &W,
    noted: &mut Noted,
    item: &Record,
) -> Result<(), NoMemory>
    ensures { OnOk result (NotesCells (V.cells below.now) noted.old noted.new
        (level_walk (W.cells over.now) (lei_in item.now) (successors_in item.now))) }
{
    let branches = SuccessorBranches { view: over };
    let found = reach(&branches, &item.lei(), &item.successors());
    note_records(below, noted, found.as_slice())
}

fn note_records<V: View>(view: &V, noted: &mut Noted, leis: &[Lei]) -> Result<(), NoMemory>
    ensures { OnOk result (NotesCells (V.cells view.now) noted.old noted.new (map CellKey.Rec leis.now)) }
{
    for lei in leis {
        note(view, noted, CellKey::Rec(*lei))?;
    }
    Ok(())
}

fn note_parents<V: View, W: View>(
    below: &V,
    over: &W,
    noted: &mut Noted,
    item: &Relation,
) -> Result<(), NoMemory>
    ensures { OnOk result (NotesCells (V.cells below.now) noted.old noted.new
        (if is_direct_parent item.now then parent_walk (W.cells over.now) (end_in item.now) else [])) }
{
    if item.is_active() && is_direct(item.kind()) {
        note_walk(below, &ParentChain { view: over }, noted, item.end())
    } else {
        Ok(())
    }
}

// Notes the cells in which the members of a walk name the next one, starting with the first member.
fn note_walk<V: View, C: Chain>(
    below: &V,
    chain: &C,
    noted: &mut Noted,
    first: Lei,
) -> Result<(), NoMemory>
    ensures { OnOk result (NotesCells (V.cells below.now) noted.old noted.new
        (map (C.cell chain.now) (walk_members 200 (known_next (C.answers chain.now)) first))) }
{
    let mut member = first;
    for _ in 0..MOST_MEMBERS {
        note(below, noted, chain.key(member))?;
        match chain.next(&member) {
            Seen::Held(next) => member = next,
            Seen::Empty => return Ok(()),
            Seen::Missing => return Ok(()),
        }
    }
    Ok(())
}
