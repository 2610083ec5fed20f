// Every call from C in one archive. An archive has the exports of its own crate alone, so each call is handed on from here, with the promise
// that it has in its library.
#![tactic(auto)]

ghost use Rattle.std.specs.Prelude.{◌≡◌};
ghost use Rattle.floor.specs.Place.{floor_of};
ghost use Rattle.maptext.specs.Reading.{reading_of, read_for};
ghost use Rattle.maptext.specs.Calls.{read_numbers, ReadCalled, WriteCalled};
ghost use Rattle.claims.specs.Route.{claim, route_verdict, packed};
ghost use Rattle.claims.specs.Table.{table_verdict, as_fault};
ghost use Rattle.answering.specs.Rooms.{rooms};
ghost use Rattle.answering.specs.Question.{question};
ghost use Rattle.search.specs.Search.{Called};
ghost use Rattle.astar.specs.Astar.{AimedCall};
ghost use Rattle.logentries.specs.Entry.{entry_of};
ghost use Rattle.routelog.specs.Calls as log;

use answering::AnswerNumbers;
use maptext::{ReadNumbers, WrittenNumbers};
use recordlayout::RECORD_SIZE;
use routelog::EntryNumbers;

#[unsafe(no_mangle)]
pub extern "C" fn fradnumber_check_route(
    width: u32,
    height: u32,
    ways: u32,
    map: &[u8],
    start: u32,
    goal: u32,
    cost: u32,
    route: &[u8],
) -> u64
    ensures { result ≡ packed (route_verdict (floor_of width height ways) map.now (claim start goal cost route.now)) }
{
    claims::routes::fradnumber_check_route(width, height, ways, map, start, goal, cost, route)
}

#[unsafe(no_mangle)]
pub extern "C" fn fradnumber_check_table(
    width: u32,
    height: u32,
    ways: u32,
    map: &[u8],
    start: u32,
    costs: &[u32],
) -> u64
    ensures { result ≡ packed (as_fault (table_verdict (floor_of width height ways) map.now start costs.now)) }
{
    claims::tables::fradnumber_check_table(width, height, ways, map, start, costs)
}

#[unsafe(no_mangle)]
pub extern "C" fn fradnumber_search(
    width: u32,
    height: u32,
    ways: u32,
    map: &[u8],
    start: u32,
    goal: u32,
    limit: u32,
    costs: &mut [u32],
    work: &mut [u32],
    route: &mut [u8],
) -> AnswerNumbers
    ensures { Called (floor_of width height ways) map.now (question start goal limit) (rooms costs.old work.old route.old) result (rooms costs.new work.new route.new) }
{
    search::rooms::fradnumber_search(
        width, height, ways, map, start, goal, limit, costs, work, route,
    )
}

#[unsafe(no_mangle)]
pub extern "C" fn fradnumber_astar(
    width: u32,
    height: u32,
    ways: u32,
    map: &[u8],
    start: u32,
    goal: u32,
    costs: &mut [u32],
    work: &mut [u32],
    route: &mut [u8],
) -> AnswerNumbers
    ensures { AimedCall (floor_of width height ways) map.now start goal (rooms costs.old work.old route.old) result (rooms costs.new work.new route.new) }
{
    astar::rooms::fradnumber_astar(width, height, ways, map, start, goal, costs, work, route)
}

#[unsafe(no_mangle)]
pub extern "C" fn fradnumber_judge_map(text: &[u8], room: usize) -> ReadNumbers
    ensures { result ≡ read_numbers (read_for (reading_of text.now room)) }
{
    maptext::fradnumber_judge_map(text, room)
}

#[unsafe(no_mangle)]
pub extern "C" fn fradnumber_read_map(text: &[u8], cells: &mut [u8]) -> ReadNumbers
    ensures { ReadCalled text.now cells.old result cells.new }
{
    maptext::fradnumber_read_map(text, cells)
}

#[unsafe(no_mangle)]
pub extern "C" fn fradnumber_write_map(
    width: u32,
    height: u32,
    map: &[u8],
    text: &mut [u8],
) -> WrittenNumbers
    ensures { WriteCalled (floor_of width height 8) map.now text.old result text.new }
{
    maptext::fradnumber_write_map(width, height, map, text)
}

#[unsafe(no_mangle)]
pub extern "C" fn fradnumber_read_entry(rest: &[u8], route: &mut [u8]) -> EntryNumbers
    ensures { log.ReadCalled rest.now route.old result route.new }
{
    routelog::fradnumber_read_entry(rest, route)
}

#[unsafe(no_mangle)]
pub extern "C" fn fradnumber_write_entry(
    question: &[u8; RECORD_SIZE],
    answer: &[u8; RECORD_SIZE],
    directions: &[u8],
    room: &mut [u8],
) -> WrittenNumbers
    ensures { log.WriteCalled (entry_of question.now answer.now directions.now) room.old result room.new }
{
    routelog::fradnumber_write_entry(question, answer, directions, room)
}
