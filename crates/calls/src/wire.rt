// What goes over the wire: numbers of four bytes, the lowest first, and rooms that are filled from what is given.
ghost use Rattle.std.specs.Prelude.{◌≤◌, length};

use std::io;
use std::io::{ErrorKind, Read, Stdin};

// Numbers go over the wire in pieces of at most so many, so that one short room of bytes serves rooms of any length.
pub(crate) const PIECE: usize = 16384;

// All that is counted here fits; what should not fit shows as the greatest number.
pub(crate) fn short(n: u64) -> u32 {
    u32::try_from(n).unwrap_or(u32::MAX)
}

// What the head says of one room: how long it is, and how many entries are given.
#[derive(Clone, Copy)]
pub(crate) struct Room {
    pub(crate) length: usize,
    pub(crate) given: usize,
}

// Repeats the first entries up to the room's end; if none are given, the room stays as it is.
fn repeat<T: Copy>(room: &mut [T], given: usize) {
    if given == 0 {
        return;
    }
    for i in given..room.len() {
        room[i] = room[i - given];
    }
}

// The part of a room that a call asks for, with the entries that are given, repeated. An error if more are given than the part holds, and if the input ends
// before.
pub(crate) fn filled_bytes(mut input: Stdin, room: &mut [u8], asked: Room) -> io::Result<&mut [u8]>
    requires { asked.length ≤ length room.old }
{
    let part = &mut room[..asked.length];
    let first = part.get_mut(..asked.given).ok_or(ErrorKind::InvalidInput)?;
    input.read_exact(first)?;
    repeat(part, asked.given);
    Ok(part)
}

// Reads as many numbers as the room holds; `bytes` is lent to hold what is read, and an error if it is too short.
pub(crate) fn read_numbers(mut input: Stdin, room: &mut [u32], bytes: &mut [u8]) -> io::Result<()> {
    let bytes = bytes
        .get_mut(..4 * room.len())
        .ok_or(ErrorKind::InvalidInput)?;
    input.read_exact(bytes)?;
    let (fours, _) = bytes.as_chunks::<4>();
    for (number, four) in room.iter_mut().zip(fours) {
        *number = u32::from_le_bytes(*four);
    }
    Ok(())
}

// The same as filled_bytes for a room of numbers; `bytes` is lent to hold a piece of what is read.
pub(crate) fn filled_numbers<'a>(
    input: Stdin,
    room: &'a mut [u32],
    asked: Room,
    bytes: &mut [u8],
) -> io::Result<&'a mut [u32]>
    requires { asked.length ≤ length room.old }
{
    let part = &mut room[..asked.length];
    let first = part.get_mut(..asked.given).ok_or(ErrorKind::InvalidInput)?;
    for piece in first.chunks_mut(PIECE) {
        read_numbers(input, piece, bytes)?;
    }
    repeat(part, asked.given);
    Ok(part)
}

// Numbers as they go over the wire; `wire` is lent to hold them, and an error if it is too short.
pub(crate) fn put_numbers<'a>(wire: &'a mut [u8], numbers: &[u32]) -> io::Result<&'a [u8]> {
    let bytes = wire
        .get_mut(..4 * numbers.len())
        .ok_or(ErrorKind::InvalidInput)?;
    let (fours, _) = bytes.as_chunks_mut::<4>();
    for (four, number) in fours.iter_mut().zip(numbers) {
        *four = number.to_le_bytes();
    }
    Ok(bytes)
}
