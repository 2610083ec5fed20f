// The end of the search: the route is written, and only the settled cells keep their costs.
ghost use Rattle.std.specs.Prelude.{◌≡◌, ◌<◌};
ghost use Rattle.paths.specs.Graph.{MARK};
ghost use Rattle.settling.specs.Aimed.{settled_count, settled_costs};
ghost use Rattle.floor.specs.Estimate.{estimate, estimate_to};
ghost use Rattle.floor.specs.Place.{place_of};
ghost use Rattle.spread.specs.Listing.{CanAim};
ghost use Rattle.answering.specs.Answer.{come_to};
ghost use Rattle.astar.specs.Ends.{kept_cost, CanKeep, CanFinish, Finished};

use answering::Outcome;
use floor::MARK;
use spread::Aim;
use walkback::walks::write_route;

// What a cell keeps of its cost; `top` is the goal's. A settled cell has a cost, and that and its estimate together, a sum of 64 bits, are at most `top`; where
// the goal has no cost, every cell that has one is settled. MARK is no cost: nothing is added to it or compared with it (02, R-4).
#[tactic(auto, unfolding(crate::specs::Ends::kept_cost))]
fn kept_cost(aim: Aim, top: u32, cost: u32, cell: usize) -> u32
    requires { CanAim aim × (cell < MARK) }
    ensures { result ≡ kept_cost (estimate_to aim.floor (place_of aim.floor cell) aim.place) top cost }
{
    if cost == MARK || top == MARK {
        return cost;
    }
    let estimate = estimates::estimate(aim.floor, aim.place, cell);
    if (cost as u64) + estimate <= top as u64 {
        return cost;
    }
    MARK
}

// Only the settled cells keep their costs; gives their number. The goal's own cost is read before any cell loses one.
fn keep_settled(aim: Aim, costs: &mut [u32]) -> usize
    requires { CanKeep aim costs.old }
    ensures count { result ≡ settled_count (estimate aim.floor aim.goal) costs.old aim.goal }
    ensures left { costs.new ≡ settled_costs (estimate aim.floor aim.goal) costs.old aim.goal }
{
    let top = costs[aim.goal];
    let mut settled = 0;
    for cell in 0..costs.len() {
        let cost = kept_cost(aim, top, costs[cell], cell);
        costs[cell] = cost;
        if cost != MARK {
            settled += 1;
        }
    }
    settled
}

// The answer from the costs that the search ends with. The route is walked back on these costs, before any is taken back.
#[tactic(auto, using(crate::proofs::Ending::can_walk, crate::proofs::Ending::finished_found))]
pub(crate) fn finish(
    aim: Aim,
    map: &[u8],
    start: usize,
    costs: &mut [u32],
    route: &mut [u8],
) -> Outcome
    requires { CanFinish aim map.now start costs.old route.old }
    ensures { Finished aim.floor map.now start aim.goal route.old (come_to result) costs.new route.new }
{
    let cost = costs[aim.goal];
    if cost == MARK {
        return Outcome::NoRoute(keep_settled(aim, costs));
    }
    let length = write_route(aim.floor, map, costs, start, aim.goal, route);
    Outcome::Found(keep_settled(aim, costs), cost, length)
}
