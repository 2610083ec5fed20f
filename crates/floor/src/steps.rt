// The step test (01, "The floor"), and what all steps of a cell share with it. A neighbour is found by the table's offsets, so that no more than one cell
// number is divided, and none where its place is at hand.
ghost use Rattle.std.specs.Prelude.{◌≡◌, ◌&&◌, ◌+◌, ◌-◌, ◌*◌, ◌<◌, ◌≤◌, T, leb, ltb, length};
ghost use Rattle.paths.specs.Graph.{MARK};
ghost use Rattle.floor.specs.Direction.{row_of, plus_one, IsSmall};
ghost use Rattle.floor.specs.Place.{cells, place_of, cell_at, moved_by, moved, on_map};
ghost use Rattle.floor.specs.Step.{is_direction, step_weight, cuts_corner, entering, step_of};
ghost use Rattle.floor.specs.Around.{weight_at};
ghost use Rattle.floor.specs.Refusal.{HasPassed};

use crate::{DIRECTIONS, Direction, Floor, Place, Reason, Step};

#[tactic(auto, unfolding(crate::specs::Step::is_direction))]
pub(crate) fn is_direction(f: Floor, direction: usize) -> bool
    ensures { result ≡ is_direction f direction }
{
    direction < 8 && (f.ways == 8 || direction % 2 == 0)
}

// A row of the table. By a match and no index: the rows are then constants of the code, where an index would have the whole table written to memory at each
// look.
pub(crate) fn direction_at(direction: usize) -> Direction
    requires { direction < 8 }
    ensures { (result ≡ row_of direction) × IsSmall result }
{
    let table = DIRECTIONS;
    match direction {
        0 => table[0],
        1 => table[1],
        2 => table[2],
        3 => table[3],
        4 => table[4],
        5 => table[5],
        6 => table[6],
        _ => table[7],
    }
}

// A cell's number moved by -1, 0 or 1 strides: a stride is one for a column, and the map's width for a row.
fn shifted(n: usize, by: i32, stride: usize) -> usize
    requires { (stride ≤ n + plus_one by * stride) × (n ≤ MARK) × (stride ≤ MARK) × (plus_one by ≤ 2) }
    ensures { result ≡ n + plus_one by * stride - stride }
{
    match by {
        0 => n,
        1 => n + stride,
        _ => n - stride,
    }
}

// Whether a column or a row of the map is still one, moved by -1, 0 or 1. Only the side that it moves to is looked at.
fn stays(n: usize, by: i32, side: usize) -> bool
    requires { (0 < n) × (n ≤ side) × (plus_one by ≤ 2) }
    ensures { result ≡ (ltb 0 (n + plus_one by - 1) && leb (n + plus_one by - 1) side) }
{
    match by {
        0 => true,
        1 => n < side,
        _ => 1 < n,
    }
}

// The one division. Public so that a place can be worked out once for many estimates or steps. It is no entry.
pub fn place_of(f: Floor, cell: usize) -> Place
    requires { (0 < f.width) × (cell < MARK) }
    ensures { result ≡ place_of f cell }
{
    let width = f.width;
    Place {
        column: cell % width + 1,
        row: cell / width + 1,
    }
}

// Whether one step on from a place of the map, by a row of the table, is on the map.
#[tactic(auto, using(crate::proofs::Places::on_map_lem), unfolding(crate::specs::Place::on_map))]
fn leads_to_map(f: Floor, here: Place, d: Direction) -> bool
    requires { T (on_map f here) × IsSmall d }
    ensures { result ≡ on_map f (moved_by here d) }
{
    stays(here.column, d.dx, f.width) && stays(here.row, d.dy, f.height)
}

// The cell one step on, where that is on the map.
#[tactic(auto, using(crate::proofs::Beside::offsets))]
pub(crate) fn neighbour(f: Floor, cell: usize, d: Direction) -> usize
    requires { (cell + f.width < MARK) × IsSmall d × T (on_map f (moved_by (place_of f cell) d)) }
    ensures { result ≡ cell_at f (moved_by (place_of f cell) d) }
{
    let southward = shifted(cell, d.dy, f.width);
    shifted(southward, d.dx, 1)
}

pub(crate) fn widened(weight: u8) -> u32
    ensures { (result ≡ weight) × (result < 256) }
{
    weight as u32
}

// The weight of the cell one step on, 0 off the map.
pub(crate) fn weight_beside(f: Floor, map: &[u8], cell: usize, here: Place, d: Direction) -> u32
    requires { HasPassed f map.now × (cell < cells f) × (here ≡ place_of f cell) × IsSmall d }
    ensures { result ≡ weight_at f map.now (moved_by here d) }
{
    if leads_to_map(f, here, d) {
        let to = neighbour(f, cell, d);
        return widened(map[to]);
    }
    0
}

// The cells beside a diagonal step lie in the two directions next to its own.
#[tactic(auto, using(crate::proofs::Beside::straight_uncut, crate::proofs::Beside::diagonal_cuts))]
fn cuts_corner(f: Floor, map: &[u8], cell: usize, here: Place, direction: usize) -> bool
    requires { HasPassed f map.now × (cell < cells f) × (here ≡ place_of f cell) × (direction < 8) }
    ensures { result ≡ cuts_corner f map.now direction here (moved here direction) }
{
    direction % 2 == 1
        && (weight_beside(f, map, cell, here, direction_at(direction - 1)) == 0
            || weight_beside(f, map, cell, here, direction_at((direction + 1) % 8)) == 0)
}

// The weight of a step by the weights of the cell left and the cell entered, which are widened before they are added.
fn weight_between(left: u32, entered: u32) -> u32
    requires { (left < 256) × (entered < 256) }
    ensures { result ≡ left + entered }
{
    left + entered
}

// The weight of a step between two cells of the map, which is what it adds to P or to Q. It is no entry.
#[tactic(auto, unfolding(crate::specs::Step::step_weight))]
pub fn step_weight(map: &[u8], from: usize, to: usize) -> u32
    requires { (from < length map.now) × (to < length map.now) }
    ensures { result ≡ step_weight map.now from to }
{
    weight_between(widened(map[from]), widened(map[to]))
}

// The cost of a step by the weights of the cell left and the cell entered.
pub(crate) fn step_cost(left: u32, entered: u32, d: Direction) -> u32
    requires { (left < 256) × (entered < 256) × IsSmall d }
    ensures { result ≡ d.unit * (left + entered) }
{
    d.unit * weight_between(left, entered)
}

// The step test for a cell of the map and a direction of the floor, where the cell is open.
fn step_from(
    f: Floor,
    map: &[u8],
    cell: usize,
    here: Place,
    direction: usize,
) -> Result<Step, Reason>
    requires { HasPassed f map.now × (cell < cells f) × (here ≡ place_of f cell) × T (is_direction f direction) }
    ensures { result ≡ entering f map.now cell direction here (moved here direction) }
{
    let d = direction_at(direction);
    if leads_to_map(f, here, d) {
        let to = neighbour(f, cell, d);
        let entered = widened(map[to]);
        if entered == 0 {
            return Err(Reason::EntersBlocked);
        }
        if cuts_corner(f, map, cell, here, direction) {
            return Err(Reason::CutsCorner);
        }
        let left = widened(map[cell]);
        return Ok(Step {
            cell: to,
            cost: step_cost(left, entered, d),
        });
    }
    Err(Reason::LeavesMap)
}

// The step test for a cell of the map whose place is at hand. Takes any direction number. It is no entry: its map has passed 1 to 4.
pub fn step_at(
    f: Floor,
    map: &[u8],
    cell: usize,
    here: Place,
    direction: usize,
) -> Result<Step, Reason>
    requires { HasPassed f map.now × (cell < cells f) × (here ≡ place_of f cell) }
    ensures { result ≡ step_of f map.now cell direction }
{
    if is_direction(f, direction) {
        if map[cell] == 0 {
            return Err(Reason::LeftBlocked);
        }
        return step_from(f, map, cell, here, direction);
    }
    Err(Reason::NoSuchDirection)
}

// Takes any cell number and any direction number. It is no entry either.
pub fn step_test(f: Floor, map: &[u8], cell: usize, direction: usize) -> Result<Step, Reason>
    requires { HasPassed f map.now }
    ensures { result ≡ step_of f map.now cell direction }
{
    if cell < map.len() {
        let here = place_of(f, cell);
        return step_at(f, map, cell, here, direction);
    }
    if is_direction(f, direction) {
        return Err(Reason::LeftOffMap);
    }
    Err(Reason::NoSuchDirection)
}
