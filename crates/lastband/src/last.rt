// The last band: it is cut at the goal or at the limit, and its cells are not expanded.
ghost use Rattle.lastband.specs.Last.{CanStop, StoppedAt, CanArrive, Arrived, CanFinish, Finished};
ghost use Rattle.answering.specs.Answer.{come_to};

use answering::{Outcome, Question};
use floor::Floor;
use ranks::KEY_BASE;
use ranks::cuts::{key_of, trim};
use ranks::lists::{count_before, find_key};
use walkback::walks::write_route;
use wave::Band;

// The limit falls in the band: the cell at that place of L gives the floor, and it and all that come after it lose their costs.
fn stop_at_limit(limit: usize, costs: &mut [u32], work: &[u32], band: Band) -> Outcome
    requires { CanStop costs.old work.now limit band }
    ensures { StoppedAt costs.old work.now limit band (come_to result) costs.new }
{
    let front = band.front;
    let listed = &work[front.from..front.from + front.len];
    let low = front.bound as u64 * KEY_BASE;
    let high = band.bound as u64 * KEY_BASE;
    let key = find_key(costs, listed, low, high, limit - front.settled);
    trim(costs, key);
    Outcome::Stopped(limit, (key / KEY_BASE) as u32)
}

// The goal is settled, with `place` cells before it: the route is written, and the cells after the goal lose their costs.
fn arrive(
    f: Floor,
    map: &[u8],
    start: usize,
    goal: usize,
    place: usize,
    costs: &mut [u32],
    route: &mut [u8],
) -> Outcome
    requires { CanArrive f map.now start goal place costs.old route.old }
    ensures { Arrived f map.now start goal place costs.old route.old (come_to result) costs.new route.new }
{
    let cost = costs[goal];
    let length = write_route(f, map, costs, start, goal, route);
    trim(costs, key_of(cost, goal) + 1);
    Outcome::Found(place + 1, cost, length)
}

// The answer from the last band, with the costs cut and, if the goal is found, the route written.
pub fn finish(
    f: Floor,
    map: &[u8],
    question: Question,
    costs: &mut [u32],
    work: &[u32],
    route: &mut [u8],
    band: Band,
) -> Outcome
    requires { CanFinish f map.now question costs.old work.now route.old band }
    ensures { Finished f map.now question route.old (come_to result) costs.new route.new }
{
    let front = band.front;
    if front.len == 0 {
        return Outcome::NoRoute(front.settled);
    }
    let cost = costs[question.goal];
    if cost < band.bound {
        let listed = &work[front.from..front.from + front.len];
        let place = front.settled + count_before(costs, listed, key_of(cost, question.goal));
        if place < question.limit {
            return arrive(f, map, question.start, question.goal, place, costs, route);
        }
    }
    stop_at_limit(question.limit, costs, work, band)
}
