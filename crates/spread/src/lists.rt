// The list of open cells. The first half of the work room lists them, the second half has a 1 for each cell that is listed and a 0 for any other.
ghost use Rattle.std.specs.Prelude.{◌≡◌, ◌+◌, ◌-◌, ◌≤◌, ◌<◌, length, get_or, set};
ghost use Rattle.paths.specs.Graph.{MARK};
ghost use Rattle.floor.specs.Around.{around_of};
ghost use Rattle.spread.specs.Listing.{total, Begun, CanBegin, CanOffer, Offered, CanTakeOff, taken, CanStep, Steps, CanExpand, Expanded};

use floor::{Around, Floor, MARK};

// Only the start has a cost, and it is the only listed cell.
pub(crate) fn begin(costs: &mut [u32], work: &mut [u32], start: usize) -> usize
    requires { CanBegin costs.old work.old start }
    ensures { Begun (length costs.old) start costs.new work.new result }
{
    let flag = costs.len() + start;
    costs.fill(MARK);
    work.fill(0);
    costs[start] = 0;
    work[0] = start as u32;
    work[flag] = 1;
    1
}

// Cell `to` is offered a cost: its own falls to that if it is less, and it joins the list unless it is listed. The sum has 64 bits, so that it can't wrap, and
// is stored only where it is below a cost that has 32.
#[tactic(auto, using(crate::specs::Listing::no_less, crate::specs::Listing::falls, crate::specs::Listing::joins))]
fn offer(costs: &mut [u32], work: &mut [u32], len: usize, to: usize, sum: u64) -> usize
    requires { CanOffer costs.old work.old len to }
    ensures { Offered costs.old work.old len to sum costs.new work.new result }
{
    let flag = costs.len() + to;
    let old = costs[to] as u64;
    if old <= sum {
        return len;
    }
    costs[to] = sum as u32;
    if work[flag] == 1 {
        return len;
    }
    work[flag] = 1;
    work[len] = to as u32;
    len + 1
}

// The step from a cell in one direction.
fn take_step(
    f: Floor,
    map: &[u8],
    costs: &mut [u32],
    work: &mut [u32],
    len: usize,
    cell: usize,
    around: Around,
    direction: usize,
) -> usize
    requires { CanStep f map.now costs.old work.old len cell direction × (around ≡ around_of f map.now cell) }
    ensures steps { Steps f map.now costs.old work.old len cell direction (direction + 1) costs.new work.new result }
    ensures falls { total costs.new + result ≤ total costs.old + len }
{
    let Some(step) = floor::neighbours::step_onward(f, map, cell, around, direction) else {
        return len;
    };
    let sum = costs[cell] as u64 + step.cost as u64;
    offer(costs, work, len, step.cell, sum)
}

// All steps from a cell.
fn take_steps(
    f: Floor,
    map: &[u8],
    costs: &mut [u32],
    work: &mut [u32],
    len: usize,
    cell: usize,
) -> usize
    requires { CanStep f map.now costs.old work.old len cell 0 }
    ensures steps { Steps f map.now costs.old work.old len cell 0 8 costs.new work.new result }
    ensures falls { total costs.new + result ≤ total costs.old + len }
{
    let around = floor::neighbours::around_of(f, map, cell);
    let mut last = len;
    for direction in 0..8 {
        last = take_step(f, map, costs, work, last, cell, around, direction);
    }
    last
}

// The cell at place `at` leaves the list: the last entry takes its place.
fn take_off(cells: usize, work: &mut [u32], len: usize, at: usize) -> usize
    requires { CanTakeOff cells work.old len at }
    ensures cell { result ≡ get_or work.old at 0 }
    ensures left { work.new ≡ taken cells work.old len at }
{
    let cell = work[at] as usize;
    let last = len - 1;
    work[at] = work[last];
    let flag = cells + cell;
    work[flag] = 0;
    cell
}

// The cell at place `at` leaves the list, and its steps are taken.
pub(crate) fn expand(
    f: Floor,
    map: &[u8],
    costs: &mut [u32],
    work: &mut [u32],
    len: usize,
    at: usize,
) -> usize
    requires { CanExpand f map.now costs.old work.old len at }
    ensures keeps { Expanded f map.now costs.old work.old len costs.new work.new result }
    ensures falls { total costs.new + result < total costs.old + len }
{
    let cell = take_off(costs.len(), work, len, at);
    take_steps(f, map, costs, work, len - 1, cell)
}
