// The map text for C, in an archive of its own: each call of `maptext` is handed on from here, with the promise that it has there.
#![tactic(auto)]

ghost use Rattle.std.specs.Prelude.{◌≡◌};
ghost use Rattle.floor.specs.Place.{floor_of};
ghost use Rattle.maptext.specs.Reading.{reading_of, read_for};
ghost use Rattle.maptext.specs.Calls.{read_numbers, ReadCalled, WriteCalled};

use maptext::{ReadNumbers, WrittenNumbers};

#[unsafe(no_mangle)]
pub extern "C" fn fradnumber_judge_map(text: &[u8], room: usize) -> ReadNumbers
    ensures { result ≡ read_numbers (read_for (reading_of text.now room)) }
{
    maptext::fradnumber_judge_map(text, room)
}

#[unsafe(no_mangle)]
pub extern "C" fn fradnumber_read_map(text: &[u8], cells: &mut [u8]) -> ReadNumbers
    ensures { ReadCalled text.now cells.old result cells.new }
{
    maptext::fradnumber_read_map(text, cells)
}

#[unsafe(no_mangle)]
pub extern "C" fn fradnumber_write_map(
    width: u32,
    height: u32,
    map: &[u8],
    text: &mut [u8],
) -> WrittenNumbers
    ensures { WriteCalled (floor_of width height 8) map.now text.old result text.new }
{
    maptext::fradnumber_write_map(width, height, map, text)
}
