// A* for C, in an archive of its own: the call of `astar` is handed on from here, with the promise that it has there.
#![tactic(auto)]

ghost use Rattle.floor.specs.Place.{floor_of};
ghost use Rattle.answering.specs.Rooms.{rooms};
ghost use Rattle.astar.specs.Astar.{AimedCall};

use answering::AnswerNumbers;

#[unsafe(no_mangle)]
pub extern "C" fn fradnumber_astar(
    width: u32,
    height: u32,
    ways: u32,
    map: &[u8],
    start: u32,
    goal: u32,
    costs: &mut [u32],
    work: &mut [u32],
    route: &mut [u8],
) -> AnswerNumbers
    ensures { AimedCall (floor_of width height ways) map.now start goal (rooms costs.old work.old route.old) result (rooms costs.new work.new route.new) }
{
    astar::rooms::fradnumber_astar(width, height, ways, map, start, goal, costs, work, route)
}
