// Questions that arrive in pieces: what has arrived is answered, then a broken last record is kept for the next piece. The answers are written between
// the two, from where they stand: so these are two functions, and no answer is copied.
ghost use Rattle.std.specs.Prelude.{◌≡◌, min};
ghost use Rattle.answering.specs.Rooms.{rooms};
ghost use Rattle.desk.specs.Turn.{ArrivedAnswered, IsKept};

use crate::records::answer_records;
use floor::Floor;

// Answers the whole records among the first `end` bytes of the buffer and gives the number of bytes that are answers now.
pub fn answer_arrived(
    f: Floor,
    map: &[u8],
    buffer: &mut [u8],
    end: usize,
    costs: &mut [u32],
    work: &mut [u32],
    route: &mut [u8],
) -> usize
    ensures { ArrivedAnswered f map.now buffer.old end (rooms costs.old work.old route.old) result buffer.new (rooms costs.new work.new route.new) }
{
    let arrived = end.min(buffer.len());
    answer_records(f, map, &mut buffer[0..arrived], costs, work, route)
}

// Moves the bytes from `from` up to `end` to the front of the buffer and gives their number.
pub fn keep_tail(buffer: &mut [u8], from: usize, end: usize) -> usize
    ensures { IsKept buffer.old from end result buffer.new }
{
    let arrived = end.min(buffer.len());
    let first = from.min(arrived);
    let count = arrived - first;
    for i in 0..count {
        buffer[i] = buffer[first + i];
    }
    count
}
