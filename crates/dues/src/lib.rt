// What the rule of the table check asks of a cell by the values of its neighbours: `due` in paths/specs/Table.antt.
// A part of the table check, and of every search that must judge a costs room it is lent; no entry: what `due_at` requires, its callers prove.
#![tactic(auto)]

ghost use Rattle.std.specs.Prelude.{◌≡◌, ◌+◌, ◌≤◌, length};
ghost use Rattle.paths.specs.Table.{offer, smaller, smallest, due};
ghost use Rattle.floor.specs.Place.{cells};
ghost use Rattle.floor.specs.Step.{graph};
ghost use Rattle.floor.specs.Around.{around_of};
ghost use Rattle.floor.specs.Refusal.{HasPassed};

use floor::{Around, Floor, MARK};

// 01: sums are taken in full.
fn sum_in_full(value: u32, cost: u32) -> u64
    ensures { result ≡ value + cost }
{
    (value as u64) + (cost as u64)
}

// What the step in one direction into `cell` offers.
#[tactic(auto, using(floor::proofs::Entering::offer_into, floor::proofs::Entering::into_cell))]
fn offer_from(
    f: Floor,
    map: &[u8],
    costs: &[u32],
    cell: usize,
    around: Around,
    direction: usize,
) -> Option<u64>
    requires { HasPassed f map.now × (cells f ≤ length costs.now) × (around ≡ around_of f map.now cell) }
    ensures { result ≡ offer (graph f map.now) costs.now cell direction }
{
    let step = floor::neighbours::step_into(f, map, cell, around, direction)?;
    let value = costs[step.cell];
    if value == MARK {
        return None;
    }
    Some(sum_in_full(value, step.cost))
}

fn smaller_of(a: Option<u64>, b: Option<u64>) -> Option<u64>
    ensures { result ≡ smaller a b }
{
    match (a, b) {
        (Some(x), Some(y)) => Some(x.min(y)),
        (one, None) => one,
        (None, other) => other,
    }
}

// 01: the smallest of value + step cost over cells with an allowed step into it whose value isn't MARK.
fn smallest_offer(f: Floor, map: &[u8], costs: &[u32], cell: usize) -> Option<u64>
    requires { HasPassed f map.now × (cells f ≤ length costs.now) }
    ensures { result ≡ smallest (graph f map.now) costs.now cell 8 }
{
    let around = floor::neighbours::around_of(f, map, cell);
    let mut least = None;
    for direction in 0..8 {
        least = smaller_of(least, offer_from(f, map, costs, cell, around, direction));
    }
    least
}

// 01: the start has 0; any other cell the smallest offer, or MARK if there is none.
#[tactic(auto, unfolding(paths::specs::Table::due))]
pub fn due_at(f: Floor, map: &[u8], start: usize, costs: &[u32], cell: usize) -> u64
    requires { HasPassed f map.now × (cells f ≤ length costs.now) }
    ensures { result ≡ due (graph f map.now) start costs.now cell }
{
    if cell == start {
        return 0;
    }
    smallest_offer(f, map, costs, cell).unwrap_or(MARK as u64)
}
