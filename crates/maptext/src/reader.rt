// From a text to a map.
ghost use Rattle.std.specs.Prelude.{◌≡◌};
ghost use Rattle.maptext.specs.Reading.{reading_of, numbers_of, read_for, IsRead};
ghost use Rattle.maptext.specs.Calls.{read_numbers, ReadCalled};

use crate::ReadNumbers;
use floor::{Floor, Refusal};
use textlines::lines::{begins_at, side_at, side_line_length};
use textrows::rows::{fill_rows, judge_rows};

// What the reader answers for a cell room of that length, with nothing stored. 01: "Reader's refusals", in that order, and "the reader always returns 8 for
// ways".
pub fn judge_map(text: &[u8], room: usize) -> Result<Floor, Refusal>
    ensures { numbers_of result ≡ read_for (reading_of text.now room) }
{
    if !begins_at(b"type octile\n", text, 0) {
        return Err(Refusal::BadType);
    }
    // 12 is the length of the first line, and 4, below, of the fourth.
    let height = side_at(b"height ", text, 12).ok_or(Refusal::BadHeight(12))?;
    let width_at = 12 + side_line_length(b"height ", height);
    let width = side_at(b"width ", text, width_at).ok_or(Refusal::BadWidth(width_at))?;
    let map_at = width_at + side_line_length(b"width ", width);
    if !begins_at(b"map\n", text, map_at) {
        return Err(Refusal::BadMapLine(map_at));
    }
    if room < width * height {
        return Err(Refusal::ShortCells);
    }
    judge_rows(width, height, map_at + 4, text)?;
    Ok(Floor {
        width,
        height,
        ways: 8,
    })
}

// The whole text is judged before the first byte is stored: a fault can come late, and a refusal alters nothing.
pub fn read_map(text: &[u8], cells: &mut [u8]) -> Result<Floor, Refusal>
    ensures { IsRead text.now cells.old result cells.new }
{
    let floor = judge_map(text, cells.len())?;
    // Nothing stands after the rows.
    let from = text.len() - floor.height * (floor.width + 1);
    fill_rows(floor.width, floor.height, from, text, cells);
    Ok(floor)
}

fn read_numbers(read: Result<Floor, Refusal>) -> ReadNumbers
    ensures { result ≡ read_numbers (numbers_of read) }
{
    match read {
        Ok(floor) => ReadNumbers {
            refusal: 0,
            place: 0,
            width: floor.width as u64,
            height: floor.height as u64,
            ways: floor.ways as u64,
        },
        Err(refusal) => ReadNumbers {
            refusal: refusal.number() as u64,
            place: refusal.place() as u64,
            width: 0,
            height: 0,
            ways: 0,
        },
    }
}

// Judging for callers from C. `room` is a length, as that of a slice is.
#[unsafe(no_mangle)]
pub extern "C" fn fradnumber_judge_map(text: &[u8], room: usize) -> ReadNumbers
    ensures { result ≡ read_numbers (read_for (reading_of text.now room)) }
{
    read_numbers(judge_map(text, room))
}

// The reader for callers from C.
#[unsafe(no_mangle)]
pub extern "C" fn fradnumber_read_map(text: &[u8], cells: &mut [u8]) -> ReadNumbers
    ensures { ReadCalled text.now cells.old result cells.new }
{
    read_numbers(read_map(text, cells))
}
