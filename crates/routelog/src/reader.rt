// One entry from the rest of a file.
ghost use Rattle.std.specs.Prelude.{◌≡◌, ◌≤◌, Some, Ok, length};
ghost use Rattle.floor.specs.Numbers.{refused};
ghost use Rattle.floor.specs.Refusal.{screen};
ghost use Rattle.floor.specs.Screen.{Passed, screened};
ghost use Rattle.logentries.specs.Entry.{greatest_length};
ghost use Rattle.routelog.specs.Reading.{entry_at, route_lines, read_lines, entry, no_record, numbers_of, question_read, answer_read, ReadAs, IsRead};
ghost use Rattle.routelog.specs.Calls.{entry_numbers, ReadCalled};

use crate::{EntryNumbers, EntryRead};
use floor::Refusal;
use logentries::{FILLER, GREATEST_DIRECTION, all_within, can_be_logged, route_size};
use recordlayout::RECORD_SIZE;
use recordlayout::fields::{numbers_in, record_at};

// Where the route begins: after the question and the answer.
const ROUTE_AT: usize = 2 * RECORD_SIZE;

// The refusals of a route of `length` directions that begins these bytes, for a route room of that length.
#[tactic(auto, using(logentries::proofs::Sizes::size_holds))]
fn judge_route(bytes: &[u8], length: usize, room: usize) -> Result<(), Refusal>
    requires { length ≤ greatest_length }
    ensures { screened result ≡ screen (route_lines bytes.now length room) }
{
    let size = route_size(length);
    if bytes.len() < size {
        return Err(Refusal::CutShort);
    }
    if !all_within(0, GREATEST_DIRECTION, &bytes[..length]) {
        return Err(Refusal::BadDirections);
    }
    if !all_within(FILLER, FILLER, &bytes[length..size]) {
        return Err(Refusal::BadDirections);
    }
    if room < length {
        return Err(Refusal::ShortRoom);
    }
    Ok(())
}

// The reader's refusals, for a route room of that length, with nothing stored.
#[tactic(auto, using(logentries::proofs::Answers::steps_few), unfolding(crate::specs::Reading::read_lines))]
fn judge_entry(rest: &[u8], room: usize) -> Result<(), Refusal>
    ensures { screened result ≡ screen (read_lines rest.now room) }
{
    if rest.len() < ROUTE_AT {
        return Err(Refusal::CutShort);
    }
    let answer = record_at(rest, RECORD_SIZE);
    if !can_be_logged(&answer) {
        return Err(Refusal::NoAnswer);
    }
    judge_route(&rest[ROUTE_AT..], numbers_in(&answer).length as usize, room)
}

// Hands on the entry that begins the rest of a file, and stores its route.
fn take_entry(rest: &[u8], route: &mut [u8]) -> EntryRead
    requires { screen (read_lines rest.now (length route.old)) ≡ Passed }
    ensures { ReadAs (entry (entry_at rest.now)) route.old (Ok (Some result)) route.new }
{
    let question = record_at(rest, 0);
    let answer = record_at(rest, RECORD_SIZE);
    let length = numbers_in(&answer).length as usize;
    route[..length].copy_from_slice(&rest[ROUTE_AT..ROUTE_AT + length]);
    EntryRead {
        length,
        taken: ROUTE_AT + route_size(length),
        question,
        answer,
    }
}

// R-1: one entry per call, from the rest of the file, and none if that is empty. All of it is judged before the first direction is stored: a refusal can come
// late, and alters nothing.
pub fn read_entry(rest: &[u8], route: &mut [u8]) -> Result<Option<EntryRead>, Refusal>
    ensures { IsRead rest.now route.old result route.new }
{
    if rest.is_empty() {
        return Ok(None);
    }
    judge_entry(rest, route.len())?;
    Ok(Some(take_entry(rest, route)))
}

// The numbers where there is no entry: the two records are zeros.
fn without_entry(refusal: u64, place: u64) -> EntryNumbers
    ensures { result ≡ entry_numbers (refused refusal place) no_record no_record }
{
    EntryNumbers {
        refusal,
        place,
        length: 0,
        taken: 0,
        question: [0; RECORD_SIZE],
        answer: [0; RECORD_SIZE],
    }
}

fn entry_numbers(read: Result<Option<EntryRead>, Refusal>) -> EntryNumbers
    ensures { result ≡ entry_numbers (numbers_of read) (question_read read) (answer_read read) }
{
    match read {
        Ok(None) => without_entry(0, 0),
        Ok(Some(entry)) => {
            let question = entry.question;
            let answer = entry.answer;
            EntryNumbers {
                refusal: 0,
                place: 0,
                length: entry.length as u64,
                taken: entry.taken as u64,
                question,
                answer,
            }
        }
        Err(refusal) => without_entry(refusal.number() as u64, refusal.place() as u64),
    }
}

// The reader for callers from C.
#[unsafe(no_mangle)]
#[tactic(auto, using(crate::proofs::Calls::read_called))]
pub extern "C" fn fradnumber_read_entry(rest: &[u8], route: &mut [u8]) -> EntryNumbers
    ensures { ReadCalled rest.now route.old result route.new }
{
    entry_numbers(read_entry(rest, route))
}
