//! Keys that are ordered by their texts.
ghost use Rattle.std.specs.Prelude.{Some, refl};
ghost use Rattle.std.specs.Cmp;
ghost use Rattle.std.specs.Cmp.{eq_by_cmp_equiv, on_total, partial_order_from_agreeing_total};
ghost use Rattle.std.specs.Cmp.Rules.{comparing};
ghost use Rattle.std.specs.Ordering.{eq_by_cmp};
ghost use Rattle.std.proofs.Common.{rules};
ghost use Rattle.lei_records.specs.Tables.{key_cmp};
ghost use Rattle.copy_csv.proofs.RowLemmas.{key_total};
ghost use Rattle.golden_shelf.specs.Keys.{key_texts};

use crate::keys::compare;
use lei_records::RowKey;
use std::cmp::Ordering;

/// A key that is ordered by its texts.
#[derive(Clone, Copy)]
pub struct TextKey {
    pub key: RowKey,
}

impl PartialEq for TextKey {
    ghost eq = { λ x y. eq_by_cmp key_cmp (key_texts x.key) (key_texts y.key) };

    ghost laws = { Cmp.partial_equiv_from_equiv
        (eq_by_cmp_equiv (on_total (λ k. key_texts k.key) key_total)) };

    fn eq(&self, other: &Self) -> bool {
        self.cmp(other).is_eq()
    }
}

impl Eq for TextKey {
    ghost laws = { eq_by_cmp_equiv (on_total (λ k. key_texts k.key) key_total) };
}

impl PartialOrd for TextKey {
    ghost partial_cmp = { λ x y. Some (key_cmp (key_texts x.key) (key_texts y.key)) };

    ghost laws = { partial_order_from_agreeing_total (λ x y. key_cmp (key_texts x.key) (key_texts y.key))
        (on_total (λ k. key_texts k.key) key_total) (λ x y. refl) (λ x y. refl) };

    fn partial_cmp(&self, other: &Self) -> Option<Ordering> {
        Some(self.cmp(other))
    }
}

impl Ord for TextKey {
    ghost cmp = { λ x y. key_cmp (key_texts x.key) (key_texts y.key) };

    ghost total = { on_total (λ k. key_texts k.key) key_total };

    ghost matches_partial_cmp = { Prim.search (comparing, rules) };

    ghost matches_eq = { λ x y. refl };

    fn cmp(&self, other: &Self) -> Ordering {
        compare(&self.key, &other.key)
    }
}
