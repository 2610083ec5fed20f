// Questions answered in place.
ghost use Rattle.std.specs.Prelude.{◌+◌, ◌≤◌, length};
ghost use Rattle.answering.specs.Answer.{answer_of};
ghost use Rattle.answering.specs.Rooms.{rooms};
ghost use Rattle.recordlayout.specs.Record.{record_size};
ghost use Rattle.desk.specs.Desk.{Asked, IsAnswered};
ghost use Rattle.desk.specs.Working.{AnsweredAt};

use answering::{Outcome, Question};
use floor::{Floor, Refusal};
use recordlayout::RECORD_SIZE;
use recordlayout::answers::record_of;
use recordlayout::fields::{all_zero, number_at};
use search::rooms::search;

// 01: start, goal, limit (4 bytes each), ways (1), and zeros, which are looked at before all else.
fn ask(
    f: Floor,
    map: &[u8],
    question: &[u8],
    costs: &mut [u32],
    work: &mut [u32],
    route: &mut [u8],
) -> Result<Outcome, Refusal>
    requires { record_size ≤ length question.now }
    ensures { Asked f map.now question.now (rooms costs.old work.old route.old) (answer_of result) (rooms costs.new work.new route.new) }
{
    if !all_zero(&question[13..]) {
        return Err(Refusal::NoZeros);
    }
    let floor = Floor {
        ways: question[12] as usize,
        ..f
    };
    let question = Question {
        start: number_at(question, 0) as usize,
        goal: number_at(question, 4) as usize,
        limit: number_at(question, 8) as usize,
    };
    search(floor, map, question, costs, work, route)
}

// Answers the record at an offset of the buffer in its place.
fn answer_at(
    f: Floor,
    map: &[u8],
    records: &mut [u8],
    at: usize,
    costs: &mut [u32],
    work: &mut [u32],
    route: &mut [u8],
)
    requires { at + record_size ≤ length records.old }
    ensures { AnsweredAt f map.now records.old at (rooms costs.old work.old route.old) records.new (rooms costs.new work.new route.new) }
{
    let answer = ask(f, map, &records[at..at + RECORD_SIZE], costs, work, route);
    records[at..at + RECORD_SIZE].copy_from_slice(&record_of(answer));
}

// Answers every whole record of the buffer, in order, and gives the number of bytes that are answers now. A broken last record stays as it is.
pub fn answer_records(
    f: Floor,
    map: &[u8],
    records: &mut [u8],
    costs: &mut [u32],
    work: &mut [u32],
    route: &mut [u8],
) -> usize
    ensures { IsAnswered f map.now records.old (rooms costs.old work.old route.old) result records.new (rooms costs.new work.new route.new) }
{
    let count = records.len() / RECORD_SIZE;
    for i in 0..count {
        answer_at(f, map, records, i * RECORD_SIZE, costs, work, route);
    }
    count * RECORD_SIZE
}
