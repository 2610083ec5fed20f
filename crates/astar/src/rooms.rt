// The entry: refusals first, then the search on the parts of the rooms that it needs.
ghost use Rattle.std.specs.Prelude.{◌≡◌, length, replicate, ◌*◌, ◌≤◌, ◌<◌};
ghost use Rattle.floor.specs.Place.{cells, floor_of};
ghost use Rattle.floor.specs.Refusal.{HasPassed};
ghost use Rattle.answering.specs.Answer.{come_to, answer_of};
ghost use Rattle.answering.specs.Rooms.{rooms};
ghost use Rattle.astar.specs.Astar.{Aimed, AimedCall};
ghost use Rattle.astar.specs.Ends.{Finished};

use crate::ends::finish;
use answering::numbers::numbers_of;
use answering::rooms::screen_lengths;
use answering::{AnswerNumbers, Outcome};
use floor::steps::place_of;
use floor::{Floor, Refusal};
use spread::Aim;
use spread::passes::settle;

fn astar_rooms(
    f: Floor,
    map: &[u8],
    start: usize,
    goal: usize,
    costs: &mut [u32],
    work: &mut [u32],
    route: &mut [u8],
) -> Outcome
    requires has_passed { HasPassed f map.now × (start < cells f) × (goal < cells f) }
    requires costs_len { (length costs.old ≡ cells f) × (length work.old ≡ 2 * cells f) × (cells f ≤ length route.old) }
    ensures finished { Finished f map.now start goal route.old (come_to result) costs.new route.new }
    ensures cleared { work.new ≡ replicate (2 * cells f) 0 }
{
    let aim = Aim {
        floor: f,
        goal,
        place: place_of(f, goal),
    };
    settle(aim, map, start, costs, work);
    let answer = finish(aim, map, start, costs, route);
    work.fill(0);
    answer
}

// Refusals 1 to 11 are the plain search's; 15 is not, since there is no limit.
pub fn astar(
    f: Floor,
    map: &[u8],
    start: u32,
    goal: u32,
    costs: &mut [u32],
    work: &mut [u32],
    route: &mut [u8],
) -> Result<Outcome, Refusal>
    ensures { Aimed f map.now start goal (rooms costs.old work.old route.old) (answer_of result) (rooms costs.new work.new route.new) }
{
    let from = start as usize;
    let to = goal as usize;
    screen_lengths(f, map, from, to, costs.len(), work.len(), route.len())?;
    let cells = map.len();
    Ok(astar_rooms(
        f,
        map,
        from,
        to,
        &mut costs[..cells],
        &mut work[..2 * cells],
        route,
    ))
}

// The search for callers from C.
#[unsafe(no_mangle)]
pub extern "C" fn fradnumber_astar(
    width: u32,
    height: u32,
    ways: u32,
    map: &[u8],
    start: u32,
    goal: u32,
    costs: &mut [u32],
    work: &mut [u32],
    route: &mut [u8],
) -> AnswerNumbers
    ensures { AimedCall (floor_of width height ways) map.now start goal (rooms costs.old work.old route.old) result (rooms costs.new work.new route.new) }
{
    let f = Floor::of(width, height, ways);
    numbers_of(astar(f, map, start, goal, costs, work, route))
}
