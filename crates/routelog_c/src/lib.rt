// The route log for C, in an archive of its own: each call of `routelog` is handed on from here, with the promise that it has there.
#![tactic(auto)]

ghost use Rattle.logentries.specs.Entry.{entry_of};
ghost use Rattle.routelog.specs.Calls as log;

use recordlayout::RECORD_SIZE;
use routelog::{EntryNumbers, WrittenNumbers};

#[unsafe(no_mangle)]
pub extern "C" fn fradnumber_read_entry(rest: &[u8], route: &mut [u8]) -> EntryNumbers
    ensures { log.ReadCalled rest.now route.old result route.new }
{
    routelog::fradnumber_read_entry(rest, route)
}

#[unsafe(no_mangle)]
pub extern "C" fn fradnumber_write_entry(
    question: &[u8; RECORD_SIZE],
    answer: &[u8; RECORD_SIZE],
    directions: &[u8],
    room: &mut [u8],
) -> WrittenNumbers
    ensures { log.WriteCalled (entry_of question.now answer.now directions.now) room.old result room.new }
{
    routelog::fradnumber_write_entry(question, answer, directions, room)
}
