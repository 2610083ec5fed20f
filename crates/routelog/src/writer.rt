// One entry into a room.
ghost use Rattle.std.specs.Prelude.{◌≡◌, ◌+◌, ◌≤◌, length};
ghost use Rattle.floor.specs.Screen.{screened};
ghost use Rattle.floor.specs.Refusal.{screen};
ghost use Rattle.putting.specs.Put.{IsPut};
ghost use Rattle.recordlayout.specs.Record.{record_size};
ghost use Rattle.logentries.specs.Entry.{greatest_length, entry_of, entry_bytes};
ghost use Rattle.routelog.specs.Writing.{part_lines, IsWritten};
ghost use Rattle.routelog.specs.Calls.{WriteCalled};

use floor::written::written_numbers;
use floor::{Refusal, WrittenNumbers};
use logentries::{GREATEST_DIRECTION, all_within, can_be_logged, put_route, route_size};
use putting::put;
use recordlayout::RECORD_SIZE;
use recordlayout::fields::numbers_in;

#[tactic(auto, using(logentries::proofs::Sizes::entry_length), unfolding(logentries::specs::Entry::entry_bytes))]
fn put_entry(question: &[u8], answer: &[u8], directions: &[u8], room: &mut [u8]) -> usize
    requires { (length directions.now ≤ greatest_length) × (length (entry_bytes (entry_of question.now answer.now directions.now)) ≤ length room.old) }
    ensures { IsPut (entry_bytes (entry_of question.now answer.now directions.now)) room.old 0 result room.new }
{
    let answer_at = put(question, room, 0);
    let route_at = put(answer, room, answer_at);
    put_route(directions, room, route_at)
}

// What is refused of an answer and directions.
fn judge_parts(answer: &[u8], directions: &[u8]) -> Result<(), Refusal>
    requires { length answer.now ≡ record_size }
    ensures { screened result ≡ screen (part_lines answer.now directions.now) }
{
    if !can_be_logged(answer) {
        return Err(Refusal::NoAnswer);
    }
    if directions.len() != numbers_in(answer).length as usize {
        return Err(Refusal::BadDirections);
    }
    if !all_within(0, GREATEST_DIRECTION, directions) {
        return Err(Refusal::BadDirections);
    }
    Ok(())
}

// R-1: 62, 63 and 64 are tried before the first byte is stored, and a refusal alters nothing.
#[tactic(auto, using(crate::proofs::Writing::directions_few, logentries::proofs::Sizes::size_holds, logentries::proofs::Sizes::entry_length))]
pub fn write_entry(
    question: [u8; RECORD_SIZE],
    answer: [u8; RECORD_SIZE],
    directions: &[u8],
    room: &mut [u8],
) -> Result<usize, Refusal>
    ensures { IsWritten (entry_of question answer directions.now) room.old result room.new }
{
    judge_parts(&answer, directions)?;
    if room.len() < 2 * RECORD_SIZE + route_size(directions.len()) {
        return Err(Refusal::ShortRoom);
    }
    Ok(put_entry(&question, &answer, directions, room))
}

// The writer for callers from C. Each of the two records is a pointer to its bytes, with no length.
#[unsafe(no_mangle)]
#[tactic(auto, using(crate::proofs::Calls::write_called))]
pub extern "C" fn fradnumber_write_entry(
    question: &[u8; RECORD_SIZE],
    answer: &[u8; RECORD_SIZE],
    directions: &[u8],
    room: &mut [u8],
) -> WrittenNumbers
    ensures { WriteCalled (entry_of question.now answer.now directions.now) room.old result room.new }
{
    written_numbers(write_entry(*question, *answer, directions, room))
}
