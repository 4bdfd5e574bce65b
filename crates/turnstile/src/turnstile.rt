// A value, and the turns of its callers.
ghost use Rattle.std.specs.Prelude.{◌%◌, ◌≡◌, ℕ, ◌+◌, ◌≤◌, ◌<◌, [], ◌∷◌, ◌++◌, length, IfOk, IfErr, All, vec_capacity};
ghost use Rattle.std.specs.Fn.{FnOnceReturnsAtMut};
ghost use Rattle.turnstile.specs.Lists.{IsPrefix, longer};
ghost use Rattle.turnstile.specs.Meaning.{meaning, GoesOn, IsToldSo};
ghost use Rattle.turnstile.specs.Rule.{idle_view, waiting_view, turn_view, accounts_from};
ghost use Rattle.turnstile.specs.Steps.{IsIdle, GoesOnFrom, StayAlike, view_after};
ghost use Rattle.turnstile.specs.Passes.{PassView, view_of, account_at, with_seen};
ghost use Rattle.turnstile.specs.Passes.{AreNew, AreOf, HaveAll, AreFronts, IsTurn};
ghost use Rattle.turnstile.specs.Passes.{IsAdded, IsMadeOnce, AreAdded, AreBetween, AreApart, AreWithin};

use crate::pass::Pass;
use crate::rule::{Draw, Key, Learn, Notify, Parts, PassOn, Piece, See, TurnRule};
use crate::tally::{Said, Tally};
use crate::view::View;
use atomic_table::{Refused, Seat, Table};
use std::alloc::Global;
use std::marker::{Brand, Model};
use std::snapshot::Snapshot;
use std::sync::Wait;

// The word that counts the tickets drawn, and the word with the ticket that is served.
const DRAWN: usize = 0;

const SERVED: usize = 1;

// The other words are event counts, at most as many as there are passes. A waiting seat sleeps on the event count of
// its ticket, so that a turn wakes only the next ticket's seat.
const EVENTS: u64 = 64;

const WORDS: usize = 66;

/// One value, which its callers use in turns. Contracts see which table it is, the value that it was opened with, and
/// its number of passes.
#[derive(Drop)]
pub struct Turnstile<T: Tally> {
    table: Table<T, View<T::Entry, T::Told>, Key<T>, TurnRule<T>, Global>,
}

impl<T: Tally> Model for Turnstile<T> {
    ghost use Rattle.std.specs.Prelude.{◌≡◌, ◌≤◌};
    ghost use Rattle.turnstile.specs.Passes.{TurnstileView};

    ghost Value = { TurnstileView T };

    ghost view = { λ t. record {
      table = t.table.shared.table_id;
      value = t.table.shared.key.opened.value;
      passes = t.table.shared.key.passes;
    } };

    ghost invariant = { λ t. (t.table.shared.table_id.words ≡ 66) × (t.table.shared.table_id.slots ≡ 1)
        × (1 ≤ t.table.shared.key.passes) };
}

impl<T: Tally> Turnstile<T> {
    /// A turnstile over this value, with this many passes. An `Err` means lack of memory, and returns the value. No
    /// other call takes memory.
    pub fn open(
        alloc: Global,
        value: T,
        passes: u32,
    ) -> Result<(Turnstile<T>, Vec<Pass<T::Entry, T::Told>>), T>
        requires { (1 ≤ passes) × (passes ≤ 64) }
        ensures value { IfOk result (λ made. made.0.value ≡ value) }
        ensures number { IfOk result (λ made. made.0.passes ≡ passes) }
        ensures count { IfOk result (λ made. length made.1.items ≡ passes) }
        ensures passes { IfOk result
            (λ made. AreNew made.0.table (T.entries value) (T.stays value) 0 made.1.items) }
        ensures all { IfOk result (λ made. AreOf made.0.table made.1.items × HaveAll passes made.1.items) }
        ensures back { IfErr result (λ back. back ≡ value) }
    {
        let Ok(list) = Vec::with_capacity(alloc, passes as usize) else {
            return Err(value);
        };
        let slots = match one(alloc, value) {
            Ok(slots) => slots,
            Err(value) => {
                list.destroy_empty();
                return Err(value);
            }
        };
        let key = Key {
            opened: Snapshot::of(&slots[0]),
            passes: u64::from(passes),
        };
        match Table::new(alloc, &[0; WORDS], slots, &key) {
            Ok((table, seat)) => {
                let turnstile = Turnstile { table };
                let list = turnstile.deal(seat, list, passes);
                Ok((turnstile, list))
            }
            Err(Refused { slots }) => {
                list.destroy_empty();
                Err(only(slots))
            }
        }
    }

    // A pass for each account of the first seat.
    fn deal(
        &self,
        mut seat: Seat<T, View<T::Entry, T::Told>>,
        mut list: Vec<Pass<T::Entry, T::Told>>,
        passes: u32,
    ) -> Vec<Pass<T::Entry, T::Told>>
        requires seat { seat.table_id ≡ self.now.table }
        requires view { seat.me ≡ (
          idle_view (T.entries self.now.value) []
              (accounts_from 0 passes (T.stays self.now.value)),
          [],
        ) }
        requires some { 1 ≤ passes }
        requires room { (list.items ≡ []) × (passes ≤ vec_capacity list) }
        ensures count { length result.items ≡ passes }
        ensures passes { AreNew self.now.table
            (T.entries self.now.value) (T.stays self.now.value) 0 result.items }
        ensures all { AreOf self.now.table result.items × HaveAll passes result.items }
    {
        for _number in 0..passes - 1 {
            let part = self.table.shared.split_seat::<Parts>(&mut seat);
            push_reserved(&mut list, Pass::of(part));
        }
        push_reserved(&mut list, Pass::of(seat));
        list
    }

    /// One turn: waits for it, and lends the value in its current state to `act`, once. Nobody else has the value
    /// meanwhile.
    pub fn enter<A: Said<Told = T::Told>, F: FnOnce(&mut T) -> A, R: Wait>(
        &self,
        rt: &R,
        pass: Pass<T::Entry, T::Told>,
        act: F,
    ) -> (Pass<T::Entry, T::Told>, A)
        requires pass { pass.table ≡ self.now.table }
        requires act { F.IsAlwaysCallable act }
        requires goes_on { (x y : T) (answer : A) → FnOnceReturnsAtMut F.FnOnce act x answer y
            → GoesOn (meaning T.entries T.faults T.stays T.first T.tells) x y }
        requires tells { (x y : T) (answer : A) → FnOnceReturnsAtMut F.FnOnce act x answer y
            → IsToldSo (meaning T.entries T.faults T.stays T.first T.tells) (A.said answer) x y }
        ensures turn { (x y : T) × FnOnceReturnsAtMut F.FnOnce act x result.1 y
            × IsTurn (meaning T.entries T.faults T.stays T.first T.tells)
            pass (A.said result.1) x y result.0 }
    {
        let mut seat = self.wait_turn(rt, pass);
        let answer = act_on(seat.slot_mut(&self.table.shared, 0), act);
        self.pass_on::<A, Brand>(&mut seat, &answer);
        (Pass::of(seat), answer)
    }

    // Draws a ticket, and waits until it is served.
    fn wait_turn<R: Wait>(
        &self,
        rt: &R,
        pass: Pass<T::Entry, T::Told>,
    ) -> Seat<T, View<T::Entry, T::Told>>
        requires pass { pass.table ≡ self.now.table }
        ensures seat { result.table_id ≡ self.now.table }
        ensures value { (t : ℕ) × (x : T)
            × (result.me
            ≡ (turn_view (waiting_view (view_of pass) t) (T.entries x) (T.faults x), (0, x) ∷ []))
            × GoesOnFrom (meaning T.entries T.faults T.stays T.first T.tells) (view_of pass) x }
    {
        let mut seat = pass.into_seat();
        let ticket = self.table.shared.fetch_add::<Draw<T>>(&mut seat, DRAWN, 1);
        let event = event_of(ticket);
        for _ in rt.forever() {
            let count = self.table.shared.peek(event);
            let served = self.table.shared.load::<See<T>>(&mut seat, SERVED);
            if served == ticket {
                return seat;
            }
            self.table
                .shared
                .park(rt, event, (count % (1 << 32)) as u32);
        }
        unreachable!()
    }

    // Returns the value, serves the next ticket, and wakes its seat if it was drawn.
    fn pass_on<A: Said<Told = T::Told>, P: Piece<T::Told>>(
        &self,
        seat: &mut Seat<T, View<T::Entry, T::Told>>,
        answer: &A,
    )
        requires piece { P.piece ≡ A.said answer.now }
        requires seat { seat.old.table_id ≡ self.now.table }
        requires value { (p : PassView T.Entry T.Told) × (t : ℕ) × (x y : T)
            × (seat.old.me
            ≡ (turn_view (waiting_view (view_of p) t) (T.entries x) (T.faults x), (0, y) ∷ []))
            × (T.stays x ≡ p.stays)
            × GoesOn (meaning T.entries T.faults T.stays T.first T.tells) x y
            × IsToldSo (meaning T.entries T.faults T.stays T.first T.tells) P.piece x y }
        ensures seat { seat.new.table_id ≡ seat.old.table_id }
        ensures view { (y : T) → seat.old.me.1 ≡ (0, y) ∷ []
            → seat.new.me ≡ (
              view_after (meaning T.entries T.faults T.stays T.first T.tells)
                  (A.said answer.now) seat.old.me.0 y,
              [],
            ) }
    {
        let _ = answer;
        let served = self.table.shared.fetch_add::<PassOn<T, P>>(seat, SERVED, 1);
        let next = served.wrapping_add(1);
        if self.table.shared.peek(DRAWN) != next {
            self.notify(seat, next);
        }
    }

    // Raises the event count of a ticket, and wakes the seat that sleeps on it.
    fn notify(&self, seat: &mut Seat<T, View<T::Entry, T::Told>>, ticket: u64)
        requires { seat.old.table_id ≡ self.now.table }
        ensures seat { seat.new.table_id ≡ seat.old.table_id }
        ensures view { seat.new.me ≡ seat.old.me }
    {
        let event = event_of(ticket);
        self.table.shared.fetch_add::<Notify>(seat, event, 1);
        self.table.shared.wake_all(event);
    }

    /// Two passes meet: what each had seen is a front of the longer of the two lists, which both have seen afterwards.
    pub fn meet<R: Wait>(
        &self,
        rt: &R,
        first: Pass<T::Entry, T::Told>,
        second: Pass<T::Entry, T::Told>,
    ) -> (Pass<T::Entry, T::Told>, Pass<T::Entry, T::Told>)
        requires first { first.table ≡ self.now.table }
        requires second { second.table ≡ self.now.table }
        ensures first { result.0 ≡ with_seen first (longer first.seen second.seen) }
        ensures second { result.1 ≡ with_seen second (longer first.seen second.seen) }
        ensures fronts { AreFronts first.seen second.seen (longer first.seen second.seen) }
        ensures stays { first.stays ≡ second.stays }
    {
        let _ = rt;
        let mut seat = first.into_seat();
        self.take_in(&mut seat, second);
        let other = self.table.shared.split_seat::<Parts>(&mut seat);
        (Pass::of(seat), Pass::of(other))
    }

    // Joins a pass to an idle seat, which then has seen what both had seen.
    fn take_in(&self, seat: &mut Seat<T, View<T::Entry, T::Told>>, pass: Pass<T::Entry, T::Told>)
        requires seat { seat.old.table_id ≡ self.now.table }
        requires idle { IsIdle seat.old.me }
        requires pass { pass.table ≡ self.now.table }
        ensures seat { seat.new.table_id ≡ seat.old.table_id }
        ensures view { seat.new.me ≡ (
          idle_view (longer seat.old.me.0.seen pass.seen) []
              (account_at pass ∷ seat.old.me.0.accounts),
          [],
        ) }
        ensures fronts { AreFronts seat.old.me.0.seen pass.seen (longer seat.old.me.0.seen pass.seen) }
        ensures stays { StayAlike (account_at pass ∷ seat.old.me.0.accounts) }
    {
        self.table.shared.join_seat::<Parts>(seat, pass.into_seat());
        self.table.shared.load::<Learn>(seat, SERVED);
    }

    /// The value, after the last turn. The argument has all passes of the turnstile.
    pub fn close(self, mut passes: Vec<Pass<T::Entry, T::Told>>) -> T
        requires passes { AreOf self.table passes.items }
        requires all { HaveAll self.passes passes.items }
        ensures list { IsPrefix (T.entries self.value) (T.entries result) }
        ensures stays { T.stays result ≡ T.stays self.value }
        ensures seen { All (λ p. IsPrefix p.seen (T.entries result)) passes.items }
        ensures mine { (place : ℕ)
            → IsAdded (meaning T.entries T.faults T.stays T.first T.tells) self.value result place
            → IsMadeOnce passes.items place }
        ensures others { AreAdded (meaning T.entries T.faults T.stays T.first T.tells) self.value
            result passes.items }
        ensures faults { T.faults self.value ≤ T.faults result }
        ensures stretches { AreBetween (T.faults self.value) (T.faults result) passes.items }
        ensures apart { AreApart passes.items }
        ensures told { All (λ p. All T.tells p.told) passes.items }
        ensures within { AreWithin (T.faults self.value) (T.faults result) passes.items }
    {
        let Some(last) = passes.pop() else {
            unreachable!()
        };
        let mut seat = last.into_seat();
        while let Some(pass) = passes.pop() {
            self.take_in(&mut seat, pass);
        }
        passes.destroy_empty();
        let Turnstile { table } = self;
        let mut closed = table.close_with(seat);
        let value = closed.take(0);
        closed.free();
        value
    }
}

// The word with the event count of a ticket. Seats that wait at the same time have different event counts.
fn event_of(ticket: u64) -> usize
    ensures place { result ≡ 2 + ticket % 64 }
    ensures word { (2 ≤ result) × (result < 66) }
{
    2 + (ticket % EVENTS) as usize
}

// The act on the value.
fn act_on<T, A, F: FnOnce(&mut T) -> A>(value: &mut T, act: F) -> A
    requires { F.IsAlwaysCallable act }
    ensures { FnOnceReturnsAtMut F.FnOnce act value.old result value.new }
{
    act(value)
}

// A list of one.
fn one<T>(alloc: Global, value: T) -> Result<Vec<T>, T>
    ensures one { IfOk result (λ list. list.items ≡ value ∷ []) }
    ensures back { IfErr result (λ back. back ≡ value) }
{
    let mut list = Vec::new(alloc);
    match list.push(value) {
        Ok(()) => Ok(list),
        Err(failed) => {
            list.destroy_empty();
            Err(failed.value)
        }
    }
}

// The value of a list of one.
fn only<T>(mut list: Vec<T>) -> T
    requires { length list.items ≡ 1 }
    ensures { list.items ≡ result ∷ [] }
{
    let Some(value) = list.pop() else {
        unreachable!()
    };
    list.destroy_empty();
    value
}

// Puts a pass at the end of a list that has room.
fn push_reserved<P>(list: &mut Vec<P>, pass: P)
    requires { length list.old.items < vec_capacity list.old }
    ensures items { list.new.items ≡ list.old.items ++ pass ∷ [] }
    ensures room { vec_capacity list.old ≤ vec_capacity list.new }
{
    match list.push(pass) {
        Ok(()) => {}
        Err(_) => unreachable!(),
    }
}
