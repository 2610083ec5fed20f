// What stands around a cell, and all its steps: 01, "The floor". A caller that takes every step of a cell divides once for all of them, and reads its four straight
// neighbours once; a diagonal neighbour is read only where both cells beside the step are open.
ghost use Rattle.std.specs.Prelude.{◌≡◌, ◌<◌, ◌%◌};
ghost use Rattle.floor.specs.Place.{cells};
ghost use Rattle.floor.specs.Step.{step_of, onward, into_of};
ghost use Rattle.floor.specs.Around.{weight_beside, around_of, weight_ahead};
ghost use Rattle.floor.specs.Refusal.{HasPassed};

use crate::steps::{
    direction_at, is_direction, neighbour, place_of, step_cost, weight_beside, widened,
};
use crate::{Around, Floor, Step};

// Takes any cell number. It is no entry: its map has passed 1 to 4.
pub fn around_of(f: Floor, map: &[u8], cell: usize) -> Around
    requires { HasPassed f map.now }
    ensures { result ≡ around_of f map.now cell }
{
    if map.len() <= cell {
        return Around {
            weight: 0,
            north: 0,
            east: 0,
            south: 0,
            west: 0,
        };
    }
    let here = place_of(f, cell);
    let north = direction_at(0);
    let east = direction_at(2);
    let south = direction_at(4);
    let west = direction_at(6);
    Around {
        weight: widened(map[cell]),
        north: weight_beside(f, map, cell, here, north),
        east: weight_beside(f, map, cell, here, east),
        south: weight_beside(f, map, cell, here, south),
        west: weight_beside(f, map, cell, here, west),
    }
}

// The weight of the neighbour in an even direction. Floor, map and cell are here for the contract, which says whose neighbour it is.
#[tactic(auto, using(crate::proofs::Onwards::around_cell_lem))]
fn straight(f: Floor, map: &[u8], cell: usize, around: Around, direction: usize) -> u32
    requires { (cell < cells f) × (around ≡ around_of f map.now cell) × (direction < 8) × (direction % 2 ≡ 0) }
    ensures { result ≡ weight_beside f map.now cell direction }
{
    match direction {
        0 => around.north,
        2 => around.east,
        4 => around.south,
        _ => around.west,
    }
}

// The weight of the cell that a step enters, or 0. The cells beside a diagonal step lie in the two directions next to its own.
fn weight_ahead(f: Floor, map: &[u8], cell: usize, around: Around, direction: usize) -> u32
    requires { HasPassed f map.now × (cell < cells f) × (around ≡ around_of f map.now cell) × (direction < 8) }
    ensures { result ≡ weight_ahead f map.now cell direction }
{
    if direction % 2 == 0 {
        return straight(f, map, cell, around, direction);
    }
    if straight(f, map, cell, around, direction - 1) == 0 {
        return 0;
    }
    if straight(f, map, cell, around, (direction + 1) % 8) == 0 {
        return 0;
    }
    let d = direction_at(direction);
    let to = neighbour(f, cell, d);
    widened(map[to])
}

// The step from a cell by what stands around it. Takes any direction number. It is no entry either.
pub fn step_onward(
    f: Floor,
    map: &[u8],
    cell: usize,
    around: Around,
    direction: usize,
) -> Option<Step>
    requires { HasPassed f map.now × (around ≡ around_of f map.now cell) }
    ensures { result ≡ onward (step_of f map.now cell direction) }
{
    if is_direction(f, direction) {
        let left = around.weight;
        if left == 0 {
            return None;
        }
        let entered = weight_ahead(f, map, cell, around, direction);
        if entered == 0 {
            return None;
        }
        let d = direction_at(direction);
        let to = neighbour(f, cell, d);
        return Some(Step {
            cell: to,
            cost: step_cost(left, entered, d),
        });
    }
    None
}

// The step that enters `cell` in a direction: it leaves the cell that the step back from `cell` enters, and costs the same. It is no entry either.
#[tactic(auto, using(crate::proofs::Entering::no_direction, crate::proofs::Entering::into_back))]
pub fn step_into(
    f: Floor,
    map: &[u8],
    cell: usize,
    around: Around,
    direction: usize,
) -> Option<Step>
    requires { HasPassed f map.now × (around ≡ around_of f map.now cell) }
    ensures { result ≡ into_of f map.now cell direction }
{
    if 8 <= direction {
        return None;
    }
    step_onward(f, map, cell, around, (direction + 4) % 8)
}
