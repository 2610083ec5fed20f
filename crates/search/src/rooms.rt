// The entry: refusals first, then the search on the parts of the rooms that it needs.
ghost use Rattle.std.specs.Prelude.{◌≡◌, length, replicate, ◌*◌, ◌≤◌, ◌<◌};
ghost use Rattle.floor.specs.Place.{cells, floor_of};
ghost use Rattle.floor.specs.Screen.{screened};
ghost use Rattle.floor.specs.Refusal.{HasPassed, screen};
ghost use Rattle.lastband.specs.Last.{Finished};
ghost use Rattle.answering.specs.Answer.{come_to, answer_of};
ghost use Rattle.answering.specs.Answers.{numbers_of};
ghost use Rattle.answering.specs.Rooms.{rooms};
ghost use Rattle.answering.specs.Question.{question};
ghost use Rattle.search.specs.Search.{limited_lines, Searched, Called};

use answering::numbers::numbers_of;
use answering::rooms::{fill, screen_lengths};
use answering::{AnswerNumbers, Outcome, Question};
use floor::{Floor, Refusal};
use lastband::last::finish;
use wave::bands::settle;

// Refusals 1 to 11, then 15 of the limit.
fn screen_search(
    f: Floor,
    map: &[u8],
    question: Question,
    costs: usize,
    work: usize,
    route: usize,
) -> Result<(), Refusal>
    ensures { screened result ≡ screen (limited_lines f map.now question costs work route) }
{
    screen_lengths(f, map, question.start, question.goal, costs, work, route)?;
    if question.limit == 0 {
        return Err(Refusal::NoLimit);
    }
    Ok(())
}

fn search_rooms(
    f: Floor,
    map: &[u8],
    question: Question,
    costs: &mut [u32],
    work: &mut [u32],
    route: &mut [u8],
) -> Outcome
    requires has_passed { HasPassed f map.now × (question.start < cells f) × (question.goal < cells f) }
    requires costs_len { (length costs.old ≡ cells f) × (length work.old ≡ 2 * cells f) × (cells f ≤ length route.old) }
    ensures finished { Finished f map.now question route.old (come_to result) costs.new route.new }
    ensures cleared { work.new ≡ replicate (2 * cells f) 0 }
{
    let band = settle(
        f,
        map,
        question.start,
        question.goal,
        question.limit,
        costs,
        work,
    );
    let answer = finish(f, map, question, costs, work, route, band);
    fill(work, 0);
    answer
}

pub fn search(
    f: Floor,
    map: &[u8],
    question: Question,
    costs: &mut [u32],
    work: &mut [u32],
    route: &mut [u8],
) -> Result<Outcome, Refusal>
    ensures { Searched f map.now question (rooms costs.old work.old route.old) (answer_of result) (rooms costs.new work.new route.new) }
{
    screen_search(f, map, question, costs.len(), work.len(), route.len())?;
    let cells = map.len();
    Ok(search_rooms(
        f,
        map,
        question,
        &mut costs[..cells],
        &mut work[..2 * cells],
        route,
    ))
}

// The search for callers from C.
#[unsafe(no_mangle)]
pub extern "C" fn fradnumber_search(
    width: u32,
    height: u32,
    ways: u32,
    map: &[u8],
    start: u32,
    goal: u32,
    limit: u32,
    costs: &mut [u32],
    work: &mut [u32],
    route: &mut [u8],
) -> AnswerNumbers
    ensures { Called (floor_of width height ways) map.now (question start goal limit) (rooms costs.old work.old route.old) result (rooms costs.new work.new route.new) }
{
    let f = Floor::of(width, height, ways);
    let question = Question {
        start: start as usize,
        goal: goal as usize,
        limit: limit as usize,
    };
    numbers_of(search(f, map, question, costs, work, route))
}
