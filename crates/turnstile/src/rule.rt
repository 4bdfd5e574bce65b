// The rule of the table, and the kinds of steps.
ghost use Rattle.std.specs.Prelude.{Option, None, []};
ghost use Rattle.turnstile.specs.Meaning.{meaning};
ghost use Rattle.turnstile.specs.Rule.{IsKept, idle_view, spent_view, accounts_from, left_part, right_part, both_parts};
ghost use Rattle.turnstile.specs.Steps.{Draws, Sees, PassesOn, Notifies, Learns};

use crate::tally::Tally;
use crate::view::View;
use atomic_table::{Join, Play, Split, TableRule};
use std::marker::{Brand, PhantomData};
use std::snapshot::Snapshot;

// The value that a turnstile was opened with, and its number of passes.
#[derive(Drop)]
pub struct Key<T> {
    pub opened: Snapshot<T>,
    pub passes: u64,
}

// The rule of a turnstile.
pub struct TurnRule<T> {
    of: PhantomData<T>,
}

impl<T: Tally> TableRule<T, View<T::Entry, T::Told>, Key<T>> for TurnRule<T> {
    ghost holds = { λ k. IsKept (meaning T.entries T.faults T.stays T.first T.tells)
        k.opened.value k.passes };

    ghost first = { λ k. idle_view (T.entries k.opened.value) []
        (accounts_from 0 k.passes (T.stays k.opened.value)) };
}

// A seat draws a ticket.
pub struct Draw<T> {
    of: PhantomData<T>,
}

impl<T: Tally> Play<T, View<T::Entry, T::Told>> for Draw<T> {
    ghost then = { Draws };
}

// A seat with a ticket checks whether it is served.
pub struct See<T> {
    of: PhantomData<T>,
}

impl<T: Tally> Play<T, View<T::Entry, T::Told>> for See<T> {
    ghost then = { Sees (meaning T.entries T.faults T.stays T.first T.tells) };
}

// The piece of data that an answer means. Each call chooses its own.
pub trait Piece<D> {
    ghost piece: { Option D };
}

impl<D> Piece<D> for Brand {
    ghost piece = { None };
}

// A seat in turn returns the value, and serves the next ticket.
pub struct PassOn<T, P> {
    of: PhantomData<(T, P)>,
}

impl<T: Tally, P: Piece<T::Told>> Play<T, View<T::Entry, T::Told>> for PassOn<T, P> {
    ghost then = { PassesOn (meaning T.entries T.faults T.stays T.first T.tells) P.piece };
}

// A seat raises an event count.
pub struct Notify;

impl<T, E, D> Play<T, View<E, D>> for Notify {
    ghost then = { Notifies };
}

// A seat that absorbed another one has seen what both had seen.
pub struct Learn;

impl<T, E, D> Play<T, View<E, D>> for Learn {
    ghost then = { Learns };
}

// How an idle seat is split in two, and how two are joined.
pub struct Parts;

impl<E, D> Split<View<E, D>> for Parts {
    ghost left = { left_part };

    ghost right = { right_part };
}

impl<E, D> Join<View<E, D>> for Parts {
    ghost both = { both_parts };

    ghost spent = { spent_view };
}
