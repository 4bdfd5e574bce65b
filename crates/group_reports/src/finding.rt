//! A search among texts in byte order.
ghost use Rattle.group_reports.specs.Places.{AreSortedLeis, IsLeiPlace};

use copy_csv::Texts;
use std::cmp::Ordering;

/// The place of an LEI among others in byte order, counted from 0, if it is there.
pub fn find(leis: &Texts, lei: &str) -> Option<usize>
    requires { AreSortedLeis leis.now }
    ensures { IsLeiPlace leis.now lei.now result }
{
    let mut low = 0;
    let mut high = leis.len();
    while low < high {
        let middle = low + (high - low) / 2;
        match lei.as_bytes().cmp(&leis.text_bytes(middle + 1)) {
            Ordering::Less => high = middle,
            Ordering::Equal => return Some(middle),
            Ordering::Greater => low = middle + 1,
        }
    }
    None
}
