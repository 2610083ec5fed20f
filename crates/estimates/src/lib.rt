// The octile estimate of what is left to a goal: 02, R-4. Sums and products are in 64 bits, where none of them can wrap.
// A part of engines and no entry: what `estimate` requires, its callers prove. floor/specs/Estimate.antt says what it is, and floor/proofs/Estimating.antt that
// no step beats it.
#![tactic(auto)]

ghost use Rattle.std.specs.Prelude.{◌≡◌, ◌<◌, ◌≤◌};
ghost use Rattle.paths.specs.Graph.{MARK};
ghost use Rattle.floor.specs.Estimate.{distance, eight_ways, four_ways, estimate_to};
ghost use Rattle.floor.specs.Place.{IsNear, place_of};

use floor::steps::place_of;
use floor::{Floor, LEAST_DIAGONAL, LEAST_STEP, Place};

fn distance(a: usize, b: usize) -> u64
    ensures { result ≡ distance a b }
{
    a.abs_diff(b) as u64
}

fn octile(small: u64, large: u64) -> u64
    requires { (small ≤ large) × (large ≤ MARK) }
    ensures { result ≡ eight_ways small large }
{
    LEAST_DIAGONAL as u64 * small + LEAST_STEP as u64 * (large - small)
}

// The goal's place is the caller's to work out, once for all cells. It is no entry.
#[tactic(auto, unfolding(floor::specs::Estimate::estimate_to))]
pub fn estimate(f: Floor, goal: Place, cell: usize) -> u64
    requires { (0 < f.width) × (cell < MARK) × IsNear goal }
    ensures value { result ≡ estimate_to f (place_of f cell) goal }
    ensures small { result ≤ four_ways MARK MARK }
{
    let here = place_of(f, cell);
    let x = distance(here.column, goal.column);
    let y = distance(here.row, goal.row);
    if f.ways == 8 {
        return octile(x.min(y), x.max(y));
    }
    LEAST_STEP as u64 * (x + y)
}
