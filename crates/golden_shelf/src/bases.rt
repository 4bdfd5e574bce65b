//! The publication that a delta starts from, among those that are kept.
ghost use Rattle.std.specs.Prelude.{◌≡◌, ◌≤◌, ◌-ℤ◌, int_le, length, pos};
ghost use Rattle.golden_shelf.specs.Bases as spec;
ghost use Rattle.golden_shelf.specs.Bases.{base_in, moments_in};

use crate::fault::ShelfFault;
use crate::issue::Issue;
use lei_shapes::Moment;
use register_words::Base;

/// The number of the publication that a base names, counted from 1, or why the base names none.
pub fn base_number(issues: &[Issue], base: Base) -> Result<u32, ShelfFault>
    requires { length issues.now ≤ 1_000_000 }
    ensures { result ≡ base_in (moments_in issues.now) base }
{
    let Some(latest) = issues.last() else {
        return Err(ShelfFault::NothingPublished);
    };
    match base {
        Base::Number(number) => publication_numbered(issues.len(), number),
        Base::LastDay => by_age(issues, latest.moment, 86_400),
        Base::LastWeek => by_age(issues, latest.moment, 604_800),
        Base::LastMonth => by_age(issues, latest.moment, 2_678_400),
    }
}

// The publication with this number, if there are that many.
fn publication_numbered(count: usize, number: u32) -> Result<u32, ShelfFault>
    ensures { result ≡ spec.publication_numbered count number }
{
    if 1 <= number && number as usize <= count {
        Ok(number)
    } else {
        Err(ShelfFault::PublicationUnknown)
    }
}

// The last publication that is at least this many seconds older than the moment.
fn by_age(issues: &[Issue], latest: Moment, seconds: u32) -> Result<u32, ShelfFault>
    requires few { length issues.now ≤ 1_000_000 }
    ensures { result ≡ spec.by_age (spec.last_until (latest -ℤ pos seconds) (moments_in issues.now)) }
{
    match last_until(issues, latest, seconds) {
        Some(number) => Ok(number),
        None => Err(ShelfFault::NoBase),
    }
}

// Whether a publication is at least this many seconds older than the moment.
fn is_older(issue: &Issue, latest: Moment, seconds: u32) -> bool
    ensures { result ≡ int_le issue.now.moment (latest -ℤ pos seconds) }
{
    issue.moment.seconds() <= latest.seconds() - i64::from(seconds)
}

// The number of the last publication that is old enough. The search goes backwards.
fn last_until(issues: &[Issue], latest: Moment, seconds: u32) -> Option<u32>
    requires { length issues.now ≤ 1_000_000 }
    ensures { result ≡ spec.last_until (latest -ℤ pos seconds) (moments_in issues.now) }
{
    for index in (0..issues.len()).rev() {
        if is_older(&issues[index], latest, seconds) {
            return Some(index as u32 + 1);
        }
    }
    None
}
