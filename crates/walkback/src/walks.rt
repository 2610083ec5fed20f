// The walk back from the goal: at each cell the step into it that gives it its cost, the lowest direction first. That is the first of the least-cost routes.
// Its steps, P and Q are summed as the walk meets them.
ghost use Rattle.std.specs.Prelude.{◌≡◌, ◌++◌, reverse, ◌+◌, ◌≤◌, ◌<◌, length, take, drop};
ghost use Rattle.paths.specs.Graph.{MARK};
ghost use Rattle.paths.specs.First.{first_route};
ghost use Rattle.floor.specs.Place.{cells};
ghost use Rattle.floor.specs.Step.{graph};
ghost use Rattle.floor.specs.Around.{around_of};
ghost use Rattle.floor.specs.Length.{step_length, route_length};
ghost use Rattle.walkback.specs.Walks.{HasCosts, Gives, IsLast, longer_by, CanWalk};

use crate::Back;
use floor::steps::step_weight;
use floor::{Around, Floor, MARK, RouteLength, Step};

// The step into `cell` in a direction, if it gives the cell its cost. The sum has 64 bits, so that it can't wrap.
#[tactic(auto, using(floor::proofs::Entering::offer_into, floor::proofs::Entering::into_cell, crate::proofs::Giving::gives_cost, crate::proofs::Giving::gives_from), unfolding(crate::specs::Walks::Giving))]
fn giving_step(
    f: Floor,
    map: &[u8],
    costs: &[u32],
    cell: usize,
    around: Around,
    direction: usize,
) -> Option<Step>
    requires { HasCosts f map.now costs.now cell × (around ≡ around_of f map.now cell) }
    ensures { Gives f map.now costs.now cell direction result }
{
    let step = floor::neighbours::step_into(f, map, cell, around, direction)?;
    let before = costs[step.cell];
    if before != MARK && before as u64 + step.cost as u64 == costs[cell] as u64 {
        return Some(step);
    }
    None
}

// The step of the lowest direction that gives `cell` its cost.
#[tactic(auto, using(paths::proofs::Below::lowest_next), unfolding(crate::specs::Walks::Giving))]
fn last_step(f: Floor, map: &[u8], costs: &[u32], cell: usize) -> Option<Back>
    requires { HasCosts f map.now costs.now cell }
    ensures { IsLast f map.now costs.now cell result }
{
    let around = floor::neighbours::around_of(f, map, cell);
    for direction in 0..8 {
        if let Some(step) = giving_step(f, map, costs, cell, around, direction) {
            return Some(Back {
                direction,
                from: step.cell,
            });
        }
    }
    None
}

// How long a route is with one step more: its weight is summed in P if it is straight, in Q if it is diagonal.
#[tactic(auto, using(floor::proofs::Lengths::step_straight, floor::proofs::Lengths::step_diagonal))]
fn longer(summed: RouteLength, direction: usize, weight: u32) -> RouteLength
    requires { (summed.steps < MARK) × (summed.p + summed.q + weight ≤ MARK) }
    ensures { result ≡ longer_by (step_length direction weight) summed }
{
    let steps = summed.steps + 1;
    if direction % 2 == 0 {
        return RouteLength {
            steps,
            p: summed.p + weight,
            q: summed.q,
        };
    }
    RouteLength {
        steps,
        p: summed.p,
        q: summed.q + weight,
    }
}

// Writes the route's directions, the last one first, as the walk meets them, and gives how long the route is.
fn write_back(
    f: Floor,
    map: &[u8],
    costs: &[u32],
    start: usize,
    goal: usize,
    route: &mut [u8],
) -> RouteLength
    requires { CanWalk f map.now start goal costs.now × (cells f ≤ length route.old) }
    ensures measured { result ≡ route_length f map.now start (first_route (graph f map.now) start costs.now goal) }
    ensures written { route.new ≡ reverse (first_route (graph f map.now) start costs.now goal) ++ drop result.steps route.old }
{
    let mut cell = goal;
    let mut length = RouteLength {
        steps: 0,
        p: 0,
        q: 0,
    };
    while cell != start {
        // every cell of the walk but the start has got its cost by some step
        let back = last_step(f, map, costs, cell).unwrap();
        route[length.steps] = back.direction as u8;
        length = longer(length, back.direction, step_weight(map, back.from, cell));
        cell = back.from;
    }
    length
}

// Turns round the first steps in a route's room. By exchanges, and not by the slice's own `reverse`, which takes more of the stack for 16 bytes and more: a long
// route takes no more of it than a short one (docs/C.md, "How deep the stack gets").
fn turn_round(route: &mut [u8], steps: usize)
    requires { steps ≤ length route.old }
    ensures { route.new ≡ reverse (take steps route.old) ++ drop steps route.old }
{
    for low in 0..steps / 2 {
        route.swap(low, steps - 1 - low);
    }
}

// Writes the first route, from the start onwards, and gives how long it is. One walk does: what it wrote is turned round.
pub fn write_route(
    f: Floor,
    map: &[u8],
    costs: &[u32],
    start: usize,
    goal: usize,
    route: &mut [u8],
) -> RouteLength
    requires { CanWalk f map.now start goal costs.now × (cells f ≤ length route.old) }
    ensures measured { result ≡ route_length f map.now start (first_route (graph f map.now) start costs.now goal) }
    ensures written { route.new ≡ first_route (graph f map.now) start costs.now goal ++ drop result.steps route.old }
{
    let length = write_back(f, map, costs, start, goal, route);
    turn_round(route, length.steps);
    length
}
