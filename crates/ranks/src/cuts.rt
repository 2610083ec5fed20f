// The order by cost and then by cell number, as one number, and the costs that are taken back from some key on.
ghost use Rattle.std.specs.Prelude.{◌≡◌, ◌+◌, ◌*◌, ◌≤◌, length};
ghost use Rattle.paths.specs.Graph.{MARK};
ghost use Rattle.settling.specs.Cut.{kept, cut};

use crate::KEY_BASE;
use floor::MARK;

// A cell's cost and its number as one number: it sorts by cost, and then by cell number.
pub fn key_of(cost: u32, cell: usize) -> u64
    requires { cell ≤ MARK }
    ensures { result ≡ cost * 4294967296 + cell }
{
    cost as u64 * KEY_BASE + cell as u64
}

// What a cell keeps when the costs are cut at a key.
#[tactic(auto, unfolding(settling::specs::Cut::kept))]
fn kept_cost(cost: u32, cell: usize, key: u64) -> u32
    requires { cell ≤ MARK }
    ensures { result ≡ kept cost cell key }
{
    if key_of(cost, cell) < key { cost } else { MARK }
}

// The cells from the key on lose their cost: those that were only seen, and those past the goal or the limit.
// Every cell is stored to, which takes less time than a branch that no machine can foresee.
pub fn trim(costs: &mut [u32], key: u64)
    requires { length costs.old ≤ MARK }
    ensures { costs.new ≡ cut costs.old key }
{
    for (cell, cost) in costs.iter_mut().enumerate() {
        *cost = kept_cost(*cost, cell, key);
    }
}
