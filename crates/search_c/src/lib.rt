// The search for C, in an archive of its own: the call of `search` is handed on from here, with the promise that it has there.
#![tactic(auto)]

ghost use Rattle.floor.specs.Place.{floor_of};
ghost use Rattle.answering.specs.Rooms.{rooms};
ghost use Rattle.answering.specs.Question.{question};
ghost use Rattle.search.specs.Search.{Called};

use answering::AnswerNumbers;

#[unsafe(no_mangle)]
pub extern "C" fn fradnumber_search(
    width: u32,
    height: u32,
    ways: u32,
    map: &[u8],
    start: u32,
    goal: u32,
    limit: u32,
    costs: &mut [u32],
    work: &mut [u32],
    route: &mut [u8],
) -> AnswerNumbers
    ensures { Called (floor_of width height ways) map.now (question start goal limit) (rooms costs.old work.old route.old) result (rooms costs.new work.new route.new) }
{
    search::rooms::fradnumber_search(
        width, height, ways, map, start, goal, limit, costs, work, route,
    )
}
