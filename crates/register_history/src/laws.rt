//! Laws of the definitions. Each is the contract of a function that does nothing.
ghost use Rattle.std.specs.Prelude.{◌≡◌, ◌<◌, ℤ, List, Contains, length};
ghost use Rattle.lei_records.specs.Tables.{IsSoundTable};
ghost use Rattle.lei_values.specs.KeptTables.{KeptTables};
ghost use Rattle.lei_values.specs.declared.cell.KeptCell.{KeptCell};
ghost use Rattle.register_history.specs.Damage.{DamageExcludes, DamageIsOne, EntryTextsDiffer, LineTellsCell};
ghost use Rattle.register_words.specs.declared.limits.Limits.{Limits};
ghost use Rattle.upload_ledger.specs.History.{History, publications};
ghost use Rattle.successor_rules.specs.Successors.{SuccessorChainsEnd};
ghost use Rattle.relation_rules.specs.Parents.{ExceptionsExcludeParents, ParentChainsEnd};
ghost use Rattle.register_words.specs.declared.reply.Refusal.TheVariants.{KeeperFault, NoMemory};
ghost use Rattle.register_words.specs.declared.reply.Reply.{Reply};
ghost use Rattle.register_words.specs.declared.reply.Reply.TheVariants.{Words};
ghost use Rattle.register_words.specs.declared.request.Asked.{Asked};
ghost use Rattle.register_words.specs.declared.request.Request.{Request};
ghost use Rattle.register_history.specs.Legal.{Legal, MomentsNeverFall, OfficeSession, UploadsAreNumbered, replies_to};
ghost use Rattle.register_history.specs.Parties.{ChangesArePermitted, ChangesMakeRecords};
ghost use Rattle.copy_forms.specs.Trails.{IsSoundTrail as IsSoundTrail};
ghost use Rattle.register_history.specs.Publications.{TouchedKeysWereAccepted, trail};
ghost use Rattle.register_history.specs.Kept.{TablesAreOne};
ghost use Rattle.register_history.specs.Register.{CellsHaveTheRows, after};
ghost use Rattle.register_history.specs.Replies.{Step};
ghost use Rattle.register_history.specs.State.{OfficeState};
ghost use Rattle.register_history.specs.Steps.{AddsOneOrNone};

/// In a legal history no entry's moment is later than that of the next one.
pub fn moments_never_fall()
    ensures { (office : OfficeState) → Legal office → MomentsNeverFall office.history }
{}

/// In a legal history each issuer's uploads have the numbers 1, 2, 3 and so on.
pub fn uploads_are_numbered()
    ensures { (office : OfficeState) → Legal office → UploadsAreNumbered office.history }
{}

/// A step adds one entry to the history or none, and leaves the limits unchanged.
pub fn steps_add_one_entry_or_none()
    ensures { (old new : OfficeState) (request : Request) (moment : ℤ) (answered : Reply) →
        Step old request moment answered new → AddsOneOrNone old new }
{}

/// A legal history has at most 1,000,000 publications.
pub fn publications_are_few()
    ensures { (office : OfficeState) → Legal office → length (publications office.history) < 1_000_001 }
{}

/// In the register of a legal history no two live records have the same authority key. No two active relationships in
/// it have the same start and type.
pub fn registers_are_sound()
    ensures { (office : OfficeState) → Legal office → IsSoundTable (after office.limits office.history) }
{}

/// In the register of a legal history each successor that a record names is held, and each chain of successors ends.
pub fn successors_are_chained()
    ensures { (office : OfficeState) → Legal office
        → SuccessorChainsEnd (after office.limits office.history) }
{}

/// In the register of a legal history each chain of direct parents ends. For one start and type at most one
/// relationship is active, which is part of a sound table.
pub fn parents_are_chained()
    ensures { (office : OfficeState) → Legal office → ParentChainsEnd (after office.limits office.history) }
{}

/// In the register of a legal history no entity has both an active parent and the exception of its category.
pub fn exceptions_stand_apart()
    ensures { (office : OfficeState) → Legal office
        → ExceptionsExcludeParents (after office.limits office.history) }
{}

/// In a legal history each change of a record was permitted to the issuer that sent it.
pub fn changes_are_permitted()
    ensures { (office : OfficeState) → Legal office → ChangesArePermitted office }
{}

/// The records of a register are the result of the changes of its history.
pub fn changes_make_records()
    ensures { (office : OfficeState) → ChangesMakeRecords office }
{}

/// The rows of a register's kept cells are those of the register.
pub fn cells_have_the_rows()
    ensures { (office : OfficeState) → CellsHaveTheRows office }
{}

/// What has damage isn't what a history leaves: a store of a history is never refused.
pub fn damage_is_no_history()
    ensures { (limits : Limits) (tables : KeptTables) → DamageExcludes limits tables }
{}

/// If a stored entry isn't what the replay makes, the two texts that report it differ.
pub fn texts_of_entries_differ()
    ensures { (limits : Limits) (entries : History) → EntryTextsDiffer limits entries }
{}

/// Take a cell whose kind and name are known. Its line shows the number of the entry that touched it last, and the word
/// of its row. A row that is the text `-` has the same word as no row.
pub fn lines_tell_cells()
    ensures { (one other : KeptCell) → LineTellsCell one other }
{}

/// A store has at most one first difference.
pub fn damage_is_one()
    ensures { (limits : Limits) (tables : KeptTables) → DamageIsOne limits tables }
{}

/// The publications of a legal history are a sound trail: the rows of each are in the order of their keys. Under a key
/// that no entry touched since the previous publication, the row is the same, or none is there as before.
pub fn publications_are_a_sound_trail()
    ensures { (office : OfficeState) → Legal office → IsSoundTrail (trail office) }
{}

/// A publication of a legal history counts a key as touched exactly if an item of that key was accepted after the
/// previous publication.
pub fn touched_keys_were_accepted()
    ensures { (office : OfficeState) → Legal office → TouchedKeysWereAccepted office }
{}

/// No two different pairs of tables are the kept tables of one office.
pub fn kept_tables_are_one()
    ensures { (office : OfficeState) → TablesAreOne office }
{}

/// If no reply reports lack of memory or a fault of the keeper, the replies are those that the requests and their
/// moments determine.
pub fn sessions_are_exact()
    ensures { (old new : OfficeState) (asks : List Asked) (moments : List ℤ) (replies : List Reply) →
        OfficeSession old asks moments replies new → ¬ (Contains replies (Words NoMemory))
        → ¬ (Contains replies (Words KeeperFault)) → replies ≡ replies_to old asks moments }
{}
