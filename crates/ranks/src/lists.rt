// The cells that are listed, in the order in which they are listed: the least cost, counts, and the key at a place.
ghost use Rattle.std.specs.Prelude.{◌≡◌, ◌≤◌, ◌<◌, length};
ghost use Rattle.paths.specs.Graph.{MARK};
ghost use Rattle.ranks.specs.Listed.{AreCells, IsLeast, below_in, key_below, CanFind, IsNext};

use crate::cuts::key_of;

// The least cost of the listed cells.
pub fn least_cost(costs: &[u32], listed: &[u32]) -> u32
    requires { (0 < length listed.now) × AreCells (length costs.now) listed.now }
    ensures { IsLeast costs.now listed.now result }
{
    let mut least = costs[listed[0] as usize];
    for cell in listed {
        least = least.min(costs[*cell as usize]);
    }
    least
}

// How many of the listed cells have a cost below the bound.
#[tactic(auto, using(crate::proofs::Listed::below_counted, crate::proofs::Listed::below_passed), unfolding(crate::specs::Listed::below_in))]
pub fn count_below(costs: &[u32], listed: &[u32], bound: u32) -> usize
    requires { AreCells (length costs.now) listed.now }
    ensures { result ≡ below_in costs.now listed.now bound }
{
    let mut n = 0;
    for cell in listed {
        if costs[*cell as usize] < bound {
            n += 1;
        }
    }
    n
}

// How many of the listed cells have a key below `key`.
#[tactic(auto, using(crate::proofs::Listed::key_counted, crate::proofs::Listed::key_passed), unfolding(crate::specs::Listed::key_below))]
pub fn count_before(costs: &[u32], listed: &[u32], key: u64) -> usize
    requires { AreCells (length costs.now) listed.now × (length costs.now ≤ MARK) }
    ensures { result ≡ key_below costs.now listed.now key }
{
    let mut n = 0;
    for cell in listed {
        let cell = *cell as usize;
        if key_of(costs[cell], cell) < key {
            n += 1;
        }
    }
    n
}

// The key with `place` of the listed cells before it, and one more before the next: by bisection between two keys.
pub fn find_key(costs: &[u32], listed: &[u32], low: u64, high: u64, place: usize) -> u64
    requires are_cells { AreCells (length costs.now) listed.now × (length costs.now ≤ MARK) }
    requires can_find { CanFind costs.now listed.now low high place }
    ensures { IsNext costs.now listed.now low high place result }
{
    let mut a = low;
    let mut b = high;
    while 1 < b - a {
        let middle = a + (b - a) / 2;
        if count_before(costs, listed, middle) <= place {
            a = middle;
        } else {
            b = middle;
        }
    }
    a
}
