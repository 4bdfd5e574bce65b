//! Walks by levels whose ends a person can predict, over webs of up to 300 LEIs. Each LEI is known by its number, and
//! greater numbers are later in byte order. Number 0 is the entity itself.
ghost use Rattle.std.specs.Prelude.{◌≡◌};
ghost use Rattle.lei_records.specs.declared.view.CellKey.{CellKey};
ghost use Rattle.device_tests.specs.Webs.{named_at};

use lei_code::{Lei, check_digits};
use lei_records::{CellKey, Seen, Successors};
use lei_values::NoMemory;
use std::alloc::Global;
use std::test::Fail;
use successor_rules::{Branches, Walked, spread_from};

// Which LEI names which.
#[derive(Clone, Copy, Debug, PartialEq, Eq)]
enum Shape {
    // Each number names the next one.
    Chain,
    // Each names the next two, so two ways lead to nearly every number.
    Ladder,
    // Each names five that no other one names: 0 names 1 to 5, 1 names 6 to 10, and so on.
    Tree,
    // The same five from the last to the first.
    FallingTree,
}

// A web with its last number. The last one may name number 0, and what numbers 2 and 4 name may be unknown.
#[derive(Clone, Copy)]
struct Web {
    shape: Shape,
    last: u32,
    comes_back: bool,
    has_gaps: bool,
}

// Each web as its shape, its last number, whether the last number names number 0, and whether there are gaps; and how
// the walk ends.
const CASES: [(Shape, u32, bool, bool, &str); 18] = [
    (Shape::Chain, 0, false, false, "ends"),
    (Shape::Chain, 3, false, false, "ends"),
    (Shape::Ladder, 3, false, false, "ends"),
    (Shape::Chain, 200, false, false, "ends"),
    (Shape::Chain, 201, false, false, "too long"),
    (Shape::Ladder, 200, false, false, "ends"),
    (Shape::Ladder, 201, false, false, "too long"),
    (Shape::Tree, 200, false, false, "ends"),
    (Shape::Tree, 201, false, false, "too long"),
    (Shape::Chain, 0, true, false, "back"),
    (Shape::Chain, 199, true, false, "back"),
    (Shape::Chain, 200, true, false, "back"),
    (Shape::Chain, 201, true, false, "too long"),
    (Shape::Tree, 200, true, false, "back"),
    (Shape::Tree, 200, false, true, "2 is unknown"),
    (Shape::FallingTree, 200, false, true, "4 is unknown"),
    (Shape::Ladder, 10, true, true, "2 is unknown"),
    (Shape::Tree, 300, false, true, "too long"),
];

// What each LEI names.
#[derive(Drop)]
struct Names {
    rows: Vec<(Lei, Seen<Successors>)>,
}

impl Branches for Names {
    ghost answers = { λ names lei. named_at names.rows.items lei };

    ghost cell = { λ names lei. CellKey.Rec lei };

    fn next(&self, lei: &Lei) -> Seen<Successors> {
        find(&self.rows, lei)
    }

    fn key(&self, lei: Lei) -> CellKey {
        CellKey::Rec(lei)
    }
}

fn find(rows: &[(Lei, Seen<Successors>)], lei: &Lei) -> Seen<Successors>
    ensures { result ≡ named_at rows.now lei.now }
{
    for (from, seen) in rows {
        if from == lei {
            return *seen;
        }
    }
    Seen::Missing
}

// The LEI of a number below 1,000.
fn lei_of(number: u32) -> Option<Lei> {
    let mut text = [b'0'; 20];
    text[15] += (number / 100 % 10) as u8;
    text[16] += (number / 10 % 10) as u8;
    text[17] += (number % 10) as u8;
    let [tens, ones] = check_digits(text.first_chunk::<18>()?).ok()?;
    text[18] = tens;
    text[19] = ones;
    Lei::read(&text).ok()
}

// The numbers that a number would name in a web without an end, at most five.
fn numbers_after(shape: Shape, number: u32) -> [Option<u32>; 5] {
    let first = number.saturating_mul(5).saturating_add(1);
    let next = number.saturating_add(1);
    match shape {
        Shape::Chain => [Some(next), None, None, None, None],
        Shape::Ladder => [Some(next), next.checked_add(1), None, None, None],
        Shape::Tree => [
            Some(first),
            first.checked_add(1),
            first.checked_add(2),
            first.checked_add(3),
            first.checked_add(4),
        ],
        Shape::FallingTree => [
            first.checked_add(4),
            first.checked_add(3),
            first.checked_add(2),
            first.checked_add(1),
            Some(first),
        ],
    }
}

fn with(names: Successors, number: Option<u32>) -> Successors {
    match number.and_then(lei_of) {
        Some(lei) if names.len() < 5 => names.with(lei),
        _ => names,
    }
}

// What a number names in the web.
fn names_of(web: Web, number: u32) -> Successors {
    let mut names = Successors::none();
    for next in numbers_after(web.shape, number) {
        names = with(names, next.filter(|next| *next <= web.last));
    }
    if web.comes_back && number == web.last {
        names = with(names, Some(0));
    }
    names
}

fn seen_of(web: Web, number: u32) -> Seen<Successors> {
    if web.has_gaps && (number == 2 || number == 4) {
        Seen::Missing
    } else {
        Seen::Held(names_of(web, number))
    }
}

fn names_in(alloc: Global, web: Web) -> Result<Names, NoMemory> {
    let mut rows = Vec::new(alloc);
    for number in 0..=web.last {
        if let Some(lei) = lei_of(number) {
            rows.push((lei, seen_of(web, number)))?;
        }
    }
    Ok(Names { rows })
}

fn end_of(walked: &Walked) -> &'static str {
    match walked {
        Walked::Meets => "back",
        Walked::Long => "too long",
        Walked::Ends => "ends",
        Walked::Missing(CellKey::Rec(lei)) if Some(*lei) == lei_of(2) => "2 is unknown",
        Walked::Missing(CellKey::Rec(lei)) if Some(*lei) == lei_of(4) => "4 is unknown",
        Walked::Missing(_) => "another is unknown",
    }
}

fn end_in(alloc: Global, web: Web) -> Result<&'static str, NoMemory> {
    let names = names_in(alloc, web)?;
    let end = match lei_of(0) {
        Some(own) => end_of(&spread_from(&names, &own, &names_of(web, 0))),
        None => "no LEI",
    };
    Ok(end)
}

#[test]
fn walks_over_webs_end_as_counted_by_hand(rt: HostRuntime) -> Result<(), Fail> {
    for (shape, last, comes_back, has_gaps, end) in CASES {
        let web = Web {
            shape,
            last,
            comes_back,
            has_gaps,
        };
        assert_eq!(rt; end_in(rt.alloc(), web)?, end, "{shape:?} to {last}");
    }
    Ok(())
}
