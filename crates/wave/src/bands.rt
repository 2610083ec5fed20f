// The wave. The work room holds two lists of open cells, one in each half: the band at hand, and those that wait for a later one.
ghost use Rattle.std.specs.Prelude.{◌≡◌, ◌+◌, ◌*◌, ◌≤◌, ◌<◌, length};
ghost use Rattle.paths.specs.Graph.{MARK};
ghost use Rattle.floor.specs.Place.{cells};
ghost use Rattle.floor.specs.Around.{around_of};
ghost use Rattle.floor.specs.Refusal.{HasPassed};
ghost use Rattle.wave.specs.Bands.{Begun, CanSee, Seen, CanTake, Took, CanTakeAll, CanVisit, Visited, CanScan, Scanned, CanLook, Looked, CanGoOn, GoneOn, Rounds};

use crate::{Band, Front};
use floor::{Around, Floor, LEAST_STEP, MARK};
use ranks::lists::{count_below, least_cost};

// Only the start has a cost, and it is the only open cell.
fn begin(costs: &mut [u32], work: &mut [u32], start: usize) -> Front
    requires { (start < length costs.old) × (length costs.old ≤ length work.old) × (start ≤ MARK) }
    ensures { Begun (length costs.old) start costs.new work.new result }
{
    costs.fill(MARK);
    costs[start] = 0;
    work[0] = start as u32;
    Front {
        from: 0,
        len: 1,
        bound: 0,
        settled: 0,
    }
}

// Cell `to` is offered a cost: its own falls to that if it is less, and it joins the list that ends at place `end` where it had none.
fn see(costs: &mut [u32], work: &mut [u32], end: usize, to: usize, cost: u32) -> usize
    requires { CanSee costs.old work.old end to cost }
    ensures { Seen costs.old work.old end to cost costs.new work.new result }
{
    let old = costs[to];
    if old <= cost {
        return end;
    }
    costs[to] = cost;
    if old == MARK {
        work[end] = to as u32;
        return end + 1;
    }
    end
}

// The step from an open cell of the band in one direction.
fn take_step(
    f: Floor,
    map: &[u8],
    costs: &mut [u32],
    work: &mut [u32],
    end: usize,
    cell: usize,
    around: Around,
    direction: usize,
) -> usize
    requires { CanTake f map.now costs.old work.old end cell direction × (around ≡ around_of f map.now cell) }
    ensures { Took f map.now costs.old work.old end cell direction (direction + 1) costs.new work.new result }
{
    let Some(step) = floor::neighbours::step_onward(f, map, cell, around, direction) else {
        return end;
    };
    let cost = costs[cell] + step.cost;
    see(costs, work, end, step.cell, cost)
}

// All steps from a cell of the band. The limit is here for the contract, which asks that the cell is within it.
fn take_steps(
    f: Floor,
    map: &[u8],
    costs: &mut [u32],
    work: &mut [u32],
    end: usize,
    cell: usize,
    limit: usize,
) -> usize
    requires { CanTakeAll f map.now costs.old work.old end cell limit }
    ensures { Took f map.now costs.old work.old end cell 0 8 costs.new work.new result }
{
    let around = floor::neighbours::around_of(f, map, cell);
    let mut last = end;
    for direction in 0..8 {
        last = take_step(f, map, costs, work, last, cell, around, direction);
    }
    last
}

// The cell at place `at` of the band: its steps are taken if it is below the bound, and else it waits for a later band.
fn visit(
    f: Floor,
    map: &[u8],
    costs: &mut [u32],
    work: &mut [u32],
    at: usize,
    end: usize,
    bound: u32,
    limit: usize,
) -> usize
    requires { CanVisit f map.now costs.old work.old at end bound limit }
    ensures { Visited f map.now costs.old work.old at end bound costs.new work.new result }
{
    let cell = work[at] as usize;
    if costs[cell] < bound {
        return take_steps(f, map, costs, work, end, cell, limit);
    }
    work[end] = cell as u32;
    end + 1
}

// A whole band: the list in one half is looked at, and the other half gets those that wait.
fn scan(
    f: Floor,
    map: &[u8],
    costs: &mut [u32],
    work: &mut [u32],
    band: Band,
    limit: usize,
) -> Front
    requires { CanScan f map.now costs.old work.old band limit }
    ensures { Scanned f map.now costs.old work.old band costs.new work.new result }
{
    let front = band.front;
    let other = costs.len() - front.from;
    let mut end = other;
    for at in front.from..front.from + front.len {
        end = visit(f, map, costs, work, at, end, band.bound, limit);
    }
    Front {
        from: other,
        len: end - other,
        bound: band.bound,
        settled: front.settled + band.below,
    }
}

// The next band. It is the last, and its steps are not taken, if the goal or the limit falls in it, or if no cell is open.
fn look(costs: &[u32], work: &[u32], goal: usize, limit: usize, front: Front) -> Band
    requires { CanLook costs.now work.now goal front }
    ensures { Looked costs.now work.now goal limit front result }
{
    if front.len == 0 {
        return Band {
            front,
            bound: front.bound,
            below: 0,
            more: false,
        };
    }
    // As wide as the least step: no cell of the band can still get cheaper.
    let listed = &work[front.from..front.from + front.len];
    let bound = least_cost(costs, listed) + LEAST_STEP;
    let below = count_below(costs, listed, bound);
    let more = bound <= costs[goal] && front.settled + below <= limit;
    Band {
        front,
        bound,
        below,
        more,
    }
}

// Bands, until the last, from any front that the goal and the limit still lie beyond.
pub fn go_on(
    f: Floor,
    map: &[u8],
    goal: usize,
    limit: usize,
    costs: &mut [u32],
    work: &mut [u32],
    mut front: Front,
) -> Band
    requires { CanGoOn f map.now costs.old work.old goal limit front }
    ensures { GoneOn f map.now costs.old work.old goal limit front costs.new work.new result }
{
    loop {
        let band = look(costs, work, goal, limit, front);
        if !band.more {
            return band;
        }
        front = scan(f, map, costs, work, band, limit);
    }
}

// Bands from the start on, until the last.
pub fn settle(
    f: Floor,
    map: &[u8],
    start: usize,
    goal: usize,
    limit: usize,
    costs: &mut [u32],
    work: &mut [u32],
) -> Band
    requires { HasPassed f map.now × (start < cells f) × (goal < cells f) × (length costs.old ≡ cells f) × (length work.old ≡ 2 * cells f) }
    ensures { Rounds f map.now start goal limit costs.new work.new result }
{
    let front = begin(costs, work, start);
    go_on(f, map, goal, limit, costs, work, front)
}
