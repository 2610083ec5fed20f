// Passes over the list of open cells, until none of them can matter to the goal.
ghost use Rattle.std.specs.Prelude.{◌≡◌, ◌+◌, ◌*◌, ◌≤◌, ◌<◌, ◌&&◌, not, eqb, ltb, length, get_or};
ghost use Rattle.paths.specs.Graph.{MARK};
ghost use Rattle.settling.specs.Spread.{SpreadEnds};
ghost use Rattle.floor.specs.Place.{cells, place_of};
ghost use Rattle.floor.specs.Step.{graph};
ghost use Rattle.floor.specs.Estimate.{estimate};
ghost use Rattle.floor.specs.Refusal.{HasPassed};
ghost use Rattle.spread.specs.Listing.{total, Expanded, CanAim, sum_at, greatest_sum, CanLook, IsLeastSum, CanPass};

use crate::lists::{begin, expand};
use crate::{Aim, WIDTH};
use floor::MARK;

// A cell's cost and its estimate together, in 64 bits.
#[tactic(auto, unfolding(crate::specs::Listing::sum_at))]
fn sum_of(aim: Aim, costs: &[u32], cell: usize) -> u64
    requires { CanAim aim × (cell < length costs.now) × (length costs.now ≤ MARK) }
    ensures sum { result ≡ sum_at aim costs.now cell }
    ensures small { result ≤ greatest_sum }
{
    let estimate = estimates::estimate(aim.floor, aim.place, cell);
    (costs[cell] as u64) + estimate
}

// The least sum of the listed cells.
fn least_sum(aim: Aim, costs: &[u32], listed: &[u32]) -> u64
    requires { (0 < length listed.now) × CanLook aim costs.now listed.now }
    ensures least { IsLeastSum aim costs.now listed.now result }
    ensures small { result ≤ greatest_sum }
{
    let mut least = sum_of(aim, costs, listed[0] as usize);
    for cell in &listed[1..] {
        least = least.min(sum_of(aim, costs, *cell as usize));
    }
    least
}

// No listed cell can matter any more: the goal has a cost, and the least sum is above it. MARK is no cost: where the goal has none, all that can be reached is
// taken. At a sum that equals the goal's cost the search goes on, since those cells are settled too, and the first route may need one of them (02, R-4).
fn is_over(cost: u32, least: u64) -> bool
    ensures { result ≡ (not (eqb cost MARK) && ltb cost least) }
{
    cost != MARK && (cost as u64) < least
}

// One pass: a listed cell whose sum is at most `top` is taken off, and its steps are taken. The last of the list takes its place and is looked at next, so
// that new cells come first. The list changes under the loop, so it goes by place.
fn pass(aim: Aim, map: &[u8], costs: &mut [u32], work: &mut [u32], len: usize, top: u64) -> usize
    requires { CanPass aim map.now costs.old work.old len top }
    ensures keeps { Expanded aim.floor map.now costs.old work.old len costs.new work.new result }
    ensures falls { total costs.new + result < total costs.old + len }
{
    let f = aim.floor;
    let mut end = len;
    let mut at = 0;
    while at < end {
        let cell = work[at] as usize;
        if sum_of(aim, costs, cell) <= top {
            end = expand(f, map, costs, work, end, at);
        } else {
            at += 1;
        }
    }
    end
}

// Passes from the start on, each over the cells whose sum is near the least, until the search is over or no cell is listed. Each pass changes how many are.
pub fn settle(aim: Aim, map: &[u8], start: usize, costs: &mut [u32], work: &mut [u32])
    requires has_passed { HasPassed aim.floor map.now × (start < cells aim.floor) × (aim.goal < cells aim.floor) × (aim.place ≡ place_of aim.floor aim.goal) }
    requires costs_len { (length costs.old ≡ cells aim.floor) × (length work.old ≡ 2 * cells aim.floor) }
    ensures { SpreadEnds (graph aim.floor map.now) start (estimate aim.floor aim.goal) aim.goal costs.new }
{
    let goal = aim.goal;
    let mut len = begin(costs, work, start);
    while 0 < len {
        let least = least_sum(aim, costs, &work[..len]);
        if is_over(costs[goal], least) {
            return;
        }
        len = pass(aim, map, costs, work, len, least + WIDTH);
    }
}
