//! Callers in turns at one turnstile, in threads.
ghost use Rattle.std.specs.Prelude.{◌≡◌, [], Some, None, All, IfOk, IsSomeAnd};
ghost use Rattle.atomic_table.specs.Seated.{TableId};
ghost use Rattle.turnstile.specs.Passes.{AreOf};

use std::alloc::{AllocError, Global};
use std::sync::Wait;
use std::test::Fail;
use std::thread;
use std::thread::Threads;
use turnstile::{Pass, Said, Tally, Turnstile};

// The marks that callers leave, each identified by its number.
#[derive(Drop)]
struct Marks {
    marks: Vec<u64>,
}

impl Tally for Marks {
    type Entry = u64;

    type Told = u64;

    ghost entries = { λ m. m.marks.items };

    ghost faults = { λ _. 0 };

    ghost stays = { λ _. [] };

    ghost first = { 1 };

    ghost tells = { λ _. Unit {0} };
}

// Which mark was left.
#[derive(Drop)]
struct Mark {
    by: u64,
}

impl Said for Mark {
    type Told = u64;

    ghost said = { λ m. Some m.by };
}

// What was counted. No pass is told of it.
#[derive(Drop)]
struct Counted {
    counted: (usize, usize),
}

impl Said for Counted {
    type Told = u64;

    ghost said = { λ _. None };
}

type Caller = Pass<u64, u64>;

// This many turns of one caller, each of which leaves a mark.
fn take_turns<R: Wait>(
    rt: &R,
    turnstile: &Turnstile<Marks>,
    pass: Caller,
    by: u64,
    turns: u64,
) -> Caller
    requires { pass.table ≡ turnstile.now.table }
    ensures { result.table ≡ pass.table }
{
    let mut pass = pass;
    for _turn in 0..turns {
        let (next, _) = turnstile.enter(rt, pass, |marks: &mut Marks| {
            let _ = marks.marks.push(by);
            Mark { by }
        });
        pass = next;
    }
    pass
}

// A caller's pass, and the mark that it leaves.
#[derive(Drop)]
struct Worker {
    pass: Option<Caller>,
    by: u64,
}

fn work<R: Wait>(rt: &R, turnstile: &Turnstile<Marks>, worker: &mut Worker, turns: u64)
    requires { IsSomeAnd worker.old.pass (λ p. p.table ≡ turnstile.now.table) }
{
    let Some(pass) = worker.pass.take() else {
        unreachable!()
    };
    worker.pass = Some(take_turns(rt, turnstile, pass, worker.by, turns));
}

// All workers at the same time.
fn work_all<R: Threads + Wait + Sync>(
    rt: &R,
    turnstile: &Turnstile<Marks>,
    workers: &mut [Worker],
    turns: u64,
)
    requires { All (λ w. IsSomeAnd w.pass (λ p. p.table ≡ turnstile.now.table)) workers.old }
{
    thread::for_each_mut(
        rt,
        workers,
        64,
        &|_: usize, worker: &mut Worker|
            requires { IsSomeAnd worker.old.pass (λ p. p.table ≡ turnstile.now.table) }
        { work(rt, turnstile, worker, turns) },
    );
}

// A worker for each of these passes.
fn workers_of(alloc: Global, mut passes: Vec<Caller>) -> Result<Vec<Worker>, AllocError>
    ensures { IfOk result (λ workers. (table : TableId) → AreOf table passes.items
        → All (λ w. IsSomeAnd w.pass (λ p. p.table ≡ table)) workers.items) }
{
    let mut workers = Vec::with_capacity(alloc, passes.len())?;
    let mut by = 0u64;
    while let Some(pass) = passes.pop() {
        workers.push(Worker {
            pass: Some(pass),
            by,
        })?;
        by = by.wrapping_add(1);
    }
    Ok(workers)
}

// How many marks there are, and how many of them were left by this caller.
fn count(marks: &Marks, by: u64) -> (usize, usize) {
    let all = marks.marks.as_slice();
    (all.len(), all.iter().filter(|mark| **mark == by).count())
}

// No marks, with room for this many.
fn no_marks(alloc: Global, room: usize) -> Result<Marks, AllocError> {
    Ok(Marks {
        marks: Vec::with_capacity(alloc, room)?,
    })
}

#[test]
fn eight_callers_take_turns(rt: HostRuntime) -> Result<(), Fail> {
    let marks = no_marks(rt.alloc(), 16_000)?;
    let Ok((turnstile, mut passes)) = Turnstile::open(rt.alloc(), marks, 9) else {
        return Err(AllocError.into());
    };
    let Some(last) = passes.pop() else {
        return Err("no pass")?;
    };
    let mut workers = workers_of(rt.alloc(), passes)?;
    work_all(&rt, &turnstile, &mut workers, 2_000);
    let (_last, counted) = turnstile.enter(
        &rt,
        last,
        |marks: &mut Marks| Counted {
            counted: count(marks, 3),
        },
    );
    assert!(rt; counted.counted == (16_000, 2_000));
    Ok(())
}
