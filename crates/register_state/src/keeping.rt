//! Adds an entry: its writes go into the table, and the keeper keeps the entry with the cells that it touched.
ghost use Rattle.std.specs.Prelude.{◌≡◌, ◌≤◌, ◌+◌, ◌++◌, ◌∷◌, [], IfOk, IfSome, OnOk, OnErr, IsAscii, IsErrOf, length, map, option_map};
ghost use Rattle.std.specs.List.{AllByRecursion};
ghost use Rattle.copy_forms.specs.Items.{item_text};
ghost use Rattle.lei_values.specs.Count.{Rose};
ghost use Rattle.lei_values.specs.KeptTables.{last_number};
ghost use Rattle.lei_keeper.specs.Keeping.{LeavesTold, TablesStay};
ghost use Rattle.upload_ledger.specs.Limits.{AreFew};
ghost use Rattle.register_history.specs.Kept.{AreTablesOf, AreTablesWith, IsKey, Keeps, StaysUntold, kept_cell, key_kind, key_name};
ghost use Rattle.register_history.specs.Legal.{Legal};
ghost use Rattle.register_history.specs.Register.{held_after};
ghost use Rattle.register_history.specs.Replies.{entry_reply};
ghost use Rattle.register_history.specs.Touching.{AreCellsTouched, Touches};
ghost use Rattle.register_state.specs.Books.{office_with_entry, office_writes};
ghost use Rattle.register_state.specs.Crashes.{LeavesAlso};
ghost use Rattle.register_state.specs.Deciding.{FitsNext};
ghost use Rattle.register_table.specs.Held.{Held};

use crate::books::Books;
use copy_forms::SharedItem;
use lei_keeper::{KeepFault, Keeper};
use lei_records::{RowKey, Writes};
use lei_values::{Batch, Bytes, KeptCell, KeptEntry, List, NoMemory, Shared};
use register_table::{Table, Touched};
use register_words::{Kind, Reply};
use std::alloc::Global;
use upload_ledger::{Ledger, PUBLISH};

// The bytes of the longest name of a cell: two LEIs, the longest type of a relationship, and two spaces.
const NAME: usize = 71;

impl Books {
    // Adds an entry with its writes, and returns its reply. The keeper gets the entry once, after all memory was
    // allocated. If the entry isn't kept, or if memory runs out, nothing changes.
    pub fn add<K: Keeper>(
        &mut self,
        keeper: &mut K,
        entry: KeptEntry,
        writes: &Writes,
    ) -> Result<Reply, KeepFault>
        requires legal { Legal (office_with_entry self.old entry) }
        requires fits { FitsNext self.old entry }
        requires writes { writes.now ≡ office_writes self.old entry }
        requires kept { Keeps (K.tables keeper.old) self.old }
        ensures reply { IfOk result (λ reply. reply ≡ entry_reply entry) }
        ensures added { OnOk result (self.new ≡ office_with_entry self.old entry) }
        ensures stays { OnErr result (self.new ≡ self.old) }
        ensures legal { Legal self.new }
        ensures kept { Keeps (K.tables keeper.new) self.new }
        ensures untold { StaysUntold (K.tables keeper.old) (K.tables keeper.new) }
        ensures leaves_added { OnOk result (LeavesTold (K.tables keeper.new) (K.leaves keeper.new)) }
        ensures leaves_refused { OnErr result
            (LeavesAlso (AreTablesOf (office_with_entry self.old entry)) (K.leaves keeper.old)
            (K.leaves keeper.new)) }
        ensures count { K.faults keeper.old ≤ K.faults keeper.new }
        ensures faultless { ¬ (IsErrOf result KeepFault.Failed) → K.faults keeper.new ≡ K.faults keeper.old }
        ensures failed { IsErrOf result KeepFault.Failed → Rose (K.faults keeper.old) (K.faults keeper.new) }
    {
        let reply = entry_reply(self.alloc, &entry)?;
        self.table.apply(writes, entry.seq, true)?;
        match keep(self.alloc, &mut self.ledger, &self.table, keeper, entry) {
            Ok(()) => Ok(reply),
            Err(fault) => {
                self.table.undo();
                Err(fault)
            }
        }
    }

    // Adds an entry that is kept already, with its writes. If memory runs out, nothing changes.
    pub fn add_kept(&mut self, entry: KeptEntry, writes: &Writes) -> Result<(), NoMemory>
        requires legal { Legal (office_with_entry self.old entry) }
        requires fits { FitsNext self.old entry }
        requires writes { writes.now ≡ office_writes self.old entry }
        ensures added { OnOk result (self.new ≡ office_with_entry self.old entry) }
        ensures stays { OnErr result (self.new ≡ self.old) }
    {
        self.ledger.reserve(&entry)?;
        self.table.apply(writes, entry.seq, false)?;
        self.ledger.push_reserved(entry);
        Ok(())
    }

    // The cells that were last touched by entries with numbers greater than `after` and at most `upto`.
    pub fn touched_cells(&self, after: u64, upto: u64) -> Result<List<KeptCell>, NoMemory>
        ensures { IfOk result (AreCellsTouched after upto (held_after self.now.limits self.now.history)) }
    {
        touched_cells(self.alloc, &self.table, after, upto)
    }
}

// The reply with an entry's answer.
fn entry_reply(alloc: Global, entry: &KeptEntry) -> Result<Reply, NoMemory>
    ensures { IfOk result (λ reply. reply ≡ entry_reply entry.now) }
{
    Ok(Reply::Text {
        code: if entry.kind == PUBLISH { 201 } else { 200 },
        kind: Kind::Json,
        text: Bytes::copy_of(alloc, entry.answer.as_slice())?,
    })
}

// Keeps an entry whose writes are in the table. The keeper's tables are those before these writes.
fn keep<K: Keeper>(
    alloc: Global,
    ledger: &mut Ledger,
    table: &Table,
    keeper: &mut K,
    entry: KeptEntry,
) -> Result<(), KeepFault>
    requires number { entry.seq ≡ length ledger.old.entries + 1 }
    requires few { AreFew (ledger.old.entries ++ entry ∷ []) }
    requires office { IsAscii entry.office }
    requires next { IfSome (K.tables keeper.old) (λ told. entry.seq ≡ last_number told + 1) }
    ensures entries { OnOk result (ledger.new.entries ≡ ledger.old.entries ++ entry ∷ []) }
    ensures entries_stay { OnErr result (ledger.new.entries ≡ ledger.old.entries) }
    ensures kept { OnOk result ((before : Held) → Touches entry.seq before table.now.held
        → IfSome (K.tables keeper.old) (AreTablesWith ledger.old.entries before)
        → IfSome (K.tables keeper.new) (AreTablesWith (ledger.old.entries ++ entry ∷ []) table.now.held)) }
    ensures tables_stay { OnErr result (TablesStay (K.tables keeper.old) (K.tables keeper.new)) }
    ensures untold { StaysUntold (K.tables keeper.old) (K.tables keeper.new) }
    ensures leaves_added { OnOk result (LeavesTold (K.tables keeper.new) (K.leaves keeper.new)) }
    ensures leaves_refused { OnErr result ((before : Held) → Touches entry.seq before table.now.held
        → IfSome (K.tables keeper.old) (AreTablesWith ledger.old.entries before)
        → LeavesAlso (AreTablesWith (ledger.old.entries ++ entry ∷ []) table.now.held) (K.leaves keeper.old)
        (K.leaves keeper.new)) }
    ensures count { K.faults keeper.old ≤ K.faults keeper.new }
    ensures faultless { ¬ (IsErrOf result KeepFault.Failed) → K.faults keeper.new ≡ K.faults keeper.old }
    ensures failed { IsErrOf result KeepFault.Failed → Rose (K.faults keeper.old) (K.faults keeper.new) }
{
    ledger.reserve(&entry)?;
    let cells = touched_cells(alloc, table, entry.seq - 1, entry.seq)?;
    let batch = Batch { entry, cells };
    match keeper.commit(&batch) {
        Ok(()) => {
            ledger.push_reserved(batch.entry);
            Ok(())
        }
        Err(fault) => Err(fault),
    }
}

// The cells that were last touched by entries with numbers greater than `after` and at most `upto`.
fn touched_cells(
    alloc: Global,
    table: &Table,
    after: u64,
    upto: u64,
) -> Result<List<KeptCell>, NoMemory>
    ensures { IfOk result (AreCellsTouched after upto table.now.held) }
{
    let touched = table.touched(after, upto)?;
    let cells = kept_cells(alloc, touched.as_slice())?;
    Ok(List::from(cells))
}

fn kept_cells(alloc: Global, touched: &[Touched]) -> Result<Vec<KeptCell>, NoMemory>
    ensures cells { IfOk result (λ cells. cells.items ≡ map kept_cell touched.now) }
    ensures keys { OnOk result (AllByRecursion (λ told. IsKey told.key) touched.now) }
{
    let mut cells = Vec::with_capacity(alloc, touched.len())?;
    for told in touched {
        cells.push(kept_cell(alloc, told)?)?;
    }
    Ok(cells)
}

// A touched key, as the cell that is kept for it.
fn kept_cell(alloc: Global, told: &Touched) -> Result<KeptCell, NoMemory>
    ensures cell { IfOk result (λ cell. cell ≡ kept_cell told.now) }
    ensures key { IsKey told.now.key }
{
    let kind = kind(&told.key);
    let name = name(alloc, &told.key)?;
    Ok(KeptCell {
        kind,
        name,
        touched: told.entry,
        row: row_text(alloc, &told.item)?,
    })
}

fn row_text(alloc: Global, item: &Option<SharedItem>) -> Result<Option<Shared>, NoMemory>
    ensures { IfOk result (λ text. text ≡ option_map item_text item.now) }
{
    match item {
        Some(item) => Ok(Some(item.text(alloc)?)),
        None => Ok(None),
    }
}

fn kind(key: &RowKey) -> u8
    ensures kind { result ≡ key_kind key.now }
    ensures key { IsKey key.now }
{
    match key {
        RowKey::Rec(lei) => {
            let _ = lei.as_bytes();
            1
        }
        RowKey::Rel(start, _, end) => {
            let _ = start.as_bytes();
            let _ = end.as_bytes();
            2
        }
        RowKey::Exc(lei, _) => {
            let _ = lei.as_bytes();
            3
        }
    }
}

// The texts of a row's key, separated by single spaces.
fn name(alloc: Global, key: &RowKey) -> Result<Bytes, NoMemory>
    ensures { IfOk result (λ name. name ≡ key_name key.now) }
{
    let mut name = Vec::with_capacity(alloc, NAME)?;
    match key {
        RowKey::Rec(lei) => name.extend_from_slice(lei.as_bytes())?,
        RowKey::Rel(start, kind, end) => {
            name.extend_from_slice(start.as_bytes())?;
            append_word(&mut name, kind.text().as_bytes())?;
            append_word(&mut name, end.as_bytes())?;
        }
        RowKey::Exc(lei, category) => {
            name.extend_from_slice(lei.as_bytes())?;
            append_word(&mut name, category.text().as_bytes())?;
        }
    }
    Ok(Bytes::from(name))
}

// Appends a space and a text to a name.
fn append_word(name: &mut Vec<u8>, text: &[u8]) -> Result<(), NoMemory>
    ensures { OnOk result (name.new.items ≡ name.old.items ++ 32 ∷ text.now) }
{
    name.push(b' ')?;
    name.extend_from_slice(text)?;
    Ok(())
}
