//! The ends of walks up along direct parents.
ghost use Rattle.std.specs.Prelude.{◌≡◌, ◌<◌, get_or, length, map, IfOk};
ghost use Rattle.std.specs.List.{All};
ghost use Rattle.group_reports.specs.Places.{FindsTops, LeadsBy, LeadsFar, LeadsWithin, end_by};

use lei_values::NoMemory;
use std::alloc::Global;

/// For each place the end of the walk up from it. There is none if the place has no parent, or if the walk comes back
/// to an earlier place. No walk that ends takes more steps than `longest`.
pub fn tops_of(
    alloc: Global,
    parents: &[Option<usize>],
    longest: usize,
) -> Result<Vec<Option<usize>>, NoMemory>
    requires { LeadsWithin parents.now }
    ensures { IfOk result (λ tops. FindsTops parents.now longest tops.items) }
{
    let far = far_up(alloc, parents, longest)?;
    let mut tops = Vec::with_capacity(alloc, parents.len())?;
    for place in 0..parents.len() {
        tops.push(end_of(parents, place, far[place]))?;
    }
    Ok(tops)
}

// The end of a walk up, given the place that many steps lead to.
fn end_of(parents: &[Option<usize>], place: usize, far: usize) -> Option<usize>
    requires place { place < length parents.now }
    requires far { far < length parents.now }
    ensures { result ≡ end_by parents.now place far }
{
    if parents[place].is_none() || parents[far].is_some() {
        return None;
    }
    Some(far)
}

// The place that at least this many steps lead to from each place; at the end of a walk, steps stay there. Each round
// doubles the number of steps.
fn far_up(alloc: Global, parents: &[Option<usize>], least: usize) -> Result<Vec<usize>, NoMemory>
    requires { LeadsWithin parents.now }
    ensures { IfOk result (λ far. LeadsFar parents.now least far.items) }
{
    let mut far = once_up(alloc, parents)?;
    let mut steps: usize = 1;
    while steps < least {
        far = twice(alloc, far.as_slice())?;
        steps = steps.saturating_add(steps);
    }
    Ok(far)
}

// The place that one step leads to from each place; at the end of a walk, the step stays there.
fn once_up(alloc: Global, parents: &[Option<usize>]) -> Result<Vec<usize>, NoMemory>
    requires { LeadsWithin parents.now }
    ensures { IfOk result (λ far. LeadsBy parents.now 1 far.items) }
{
    let mut far = Vec::with_capacity(alloc, parents.len())?;
    for place in 0..parents.len() {
        far.push(parents[place].unwrap_or(place))?;
    }
    Ok(far)
}

// The place that twice as many steps lead to.
fn twice(alloc: Global, far: &[usize]) -> Result<Vec<usize>, NoMemory>
    requires { All (λ place. place < length far.now) far.now }
    ensures { IfOk result (λ further. further.items ≡ map (λ place. get_or far.now place 0) far.now) }
{
    let mut further = Vec::with_capacity(alloc, far.len())?;
    for place in far {
        further.push(far[*place])?;
    }
    Ok(further)
}
