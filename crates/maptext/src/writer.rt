// From a map to a text.
ghost use Rattle.std.specs.Prelude.{◌≡◌, suc, ◌+◌, ◌*◌, ◌≤◌, ◌<◌, length};
ghost use Rattle.floor.specs.Place.{greatest_side, floor_of};
ghost use Rattle.putting.specs.Put.{IsPut};
ghost use Rattle.maptext.specs.Text.{header, IsWritten};
ghost use Rattle.maptext.specs.Calls.{WriteCalled};

use floor::written::written_numbers;
use floor::{Floor, Refusal, WrittenNumbers};
use putting::put;
use screens::screen_map;
use textlines::lines::{put_side_line, side_line_length};
use textrows::rows::put_rows;

fn put_header(width: usize, height: usize, room: &mut [u8]) -> usize
    requires { (0 < width) × (width ≤ greatest_side) × (0 < height) × (height ≤ greatest_side) × (length (header width height) ≤ length room.old) }
    ensures { IsPut (header width height) room.old 0 result room.new }
{
    let height_at = put(b"type octile\n", room, 0);
    let width_at = put_side_line(b"height ", height, room, height_at);
    let map_at = put_side_line(b"width ", width, room, width_at);
    put(b"map\n", room, map_at)
}

fn text_length(width: usize, height: usize) -> usize
    requires { (0 < width) × (width ≤ greatest_side) × (0 < height) × (height ≤ greatest_side) }
    ensures { result ≡ length (header width height) + height * suc width }
{
    let head = 12 + side_line_length(b"height ", height) + side_line_length(b"width ", width) + 4;
    head + height * (width + 1)
}

// The writer applies 1 to 3 and then 30, and does not look at ways.
pub fn write_map(f: Floor, map: &[u8], text: &mut [u8]) -> Result<usize, Refusal>
    ensures { IsWritten f map.now text.old result text.new }
{
    screen_map(f, map)?;
    if text.len() < text_length(f.width, f.height) {
        return Err(Refusal::ShortText);
    }
    let rows_at = put_header(f.width, f.height, text);
    Ok(put_rows(f.width, f.height, map, text, rows_at))
}

// The writer for callers from C. 8 is what the reader gives for ways.
#[unsafe(no_mangle)]
pub extern "C" fn fradnumber_write_map(
    width: u32,
    height: u32,
    map: &[u8],
    text: &mut [u8],
) -> WrittenNumbers
    ensures { WriteCalled (floor_of width height 8) map.now text.old result text.new }
{
    written_numbers(write_map(Floor::of(width, height, 8), map, text))
}
