// What a seat at the table knows. Only contracts see it: no value of these types is created.
use std::collections::LinkedList;

// Whether a seat has a ticket, and whether it is in turn.
pub enum Stage {
    Idle,
    Waiting,
    InTurn,
}

/// What a pass was told in one turn: the piece of data, and the length of the list before the turn. It was also told
/// the counts of faults at the start and at the end of the turn.
pub struct Member<D> {
    pub piece: D,
    pub at: u64,
    pub from: u64,
    pub to: u64,
}

// What the pass with this number has made and was told, and the numbers that stay.
pub struct Account<D> {
    pub number: u64,
    pub stays: LinkedList<u64>,
    pub mine: LinkedList<u64>,
    pub told: LinkedList<Member<D>>,
}

// What a seat knows: its stage, its ticket, and the count of faults at the start of its turn. It also knows the list
// that it has seen, the list that a seat absorbed by it had seen, and its accounts.
pub struct View<E, D> {
    pub stage: Stage,
    pub ticket: u64,
    pub from: u64,
    pub seen: LinkedList<E>,
    pub aside: LinkedList<E>,
    pub accounts: LinkedList<Account<D>>,
}
