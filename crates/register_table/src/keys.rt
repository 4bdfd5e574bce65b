//! Keys of cells in the order of their texts.
ghost use Rattle.std.specs.Prelude.{◌≡◌, Some, refl};
ghost use Rattle.std.specs.Cmp;
ghost use Rattle.std.specs.Cmp.{eq_by_cmp_equiv, on_total, partial_order_from_agreeing_total};
ghost use Rattle.std.specs.Cmp.Rules.{comparing};
ghost use Rattle.std.specs.Cmp.Lexicographic.{slice_cmp};
ghost use Rattle.std.specs.Ordering.{eq_by_cmp, nat_cmp, ordering_then};
ghost use Rattle.std.proofs.Common.{rules};
ghost use Rattle.lei_records.specs.Tables.{key_cmp};
ghost use Rattle.authority_rules.proofs.HolderLemmas.{keys_total};
ghost use Rattle.register_table.specs.Held.{cell_key};

use lei_code::Lei;
use lei_records::RowKey;
use std::cmp::Ordering;

/// A key that is ordered by its kind first, and then by its texts.
#[derive(Clone, Copy)]
pub struct TextKey {
    pub key: RowKey,
}

impl PartialEq for TextKey {
    ghost eq = { λ x y. eq_by_cmp key_cmp (cell_key x.key) (cell_key y.key) };

    ghost laws = { Cmp.partial_equiv_from_equiv
        (eq_by_cmp_equiv (on_total (λ k. cell_key k.key) keys_total)) };

    fn eq(&self, other: &Self) -> bool {
        self.cmp(other).is_eq()
    }
}

impl Eq for TextKey {
    ghost laws = { eq_by_cmp_equiv (on_total (λ k. cell_key k.key) keys_total) };
}

impl PartialOrd for TextKey {
    ghost partial_cmp = { λ x y. Some (key_cmp (cell_key x.key) (cell_key y.key)) };

    ghost laws = { partial_order_from_agreeing_total (λ x y. key_cmp (cell_key x.key) (cell_key y.key))
        (on_total (λ k. cell_key k.key) keys_total) (λ x y. refl) (λ x y. refl) };

    fn partial_cmp(&self, other: &Self) -> Option<Ordering> {
        Some(self.cmp(other))
    }
}

impl Ord for TextKey {
    ghost cmp = { λ x y. key_cmp (cell_key x.key) (cell_key y.key) };

    ghost total = { on_total (λ k. cell_key k.key) keys_total };

    ghost matches_partial_cmp = { Prim.search (comparing, rules) };

    ghost matches_eq = { λ x y. refl };

    fn cmp(&self, other: &Self) -> Ordering {
        compare(&self.key, &other.key)
    }
}

fn compare(a: &RowKey, b: &RowKey) -> Ordering
    ensures { result ≡ key_cmp (cell_key a.now) (cell_key b.now) }
{
    match (a, b) {
        (RowKey::Rec(a), RowKey::Rec(b)) => a.cmp(b),
        (RowKey::Rec(_), _) => Ordering::Less,
        (_, RowKey::Rec(_)) => Ordering::Greater,
        (RowKey::Rel(a, kind, end), RowKey::Rel(b, other, last)) => {
            match compare_starts(a, kind.text(), b, other.text()) {
                Ordering::Equal => end.cmp(last),
                unequal => unequal,
            }
        }
        (RowKey::Rel(_, _, _), RowKey::Exc(_, _)) => Ordering::Less,
        (RowKey::Exc(_, _), RowKey::Rel(_, _, _)) => Ordering::Greater,
        (RowKey::Exc(a, category), RowKey::Exc(b, other)) => {
            compare_starts(a, category.text(), b, other.text())
        }
    }
}

// The order of two LEIs, each followed by a text. The texts are compared only if the LEIs are the same.
fn compare_starts(lei: &Lei, text: &str, other: &Lei, other_text: &str) -> Ordering
    ensures { result ≡ ordering_then (slice_cmp nat_cmp lei.now other.now)
        (slice_cmp nat_cmp text.now other_text.now) }
{
    match lei.cmp(other) {
        Ordering::Equal => text.cmp(other_text),
        unequal => unequal,
    }
}
