// A part of the programs: reading and writing that lose nothing silently. A call that the system puts off is made again, a write that took a part goes on,
// and a call that fails is answered as one that failed.
// No contract speaks of what a system call read or wrote; what is proved is that each call keeps to the room it is lent, and what is counted.
#![tactic(auto)]

ghost use Rattle.std.specs.Prelude.{◌≡◌, ◌≤◌, ◌<◌, length, take, IfNone};
ghost use Rattle.streams.specs.Streams.{PieceIn, TextIn, text_at_end};

use std::io;
use std::io::{Read, Write};
use std::time::Clock;

mod waiting; // waiting.rt: a short sleep

use waiting::{put_off_too_often, wait_if_put_off};

// How many bytes were taken, and why not all were, if a write failed.
#[derive(Clone, Copy)]
pub struct Taken {
    pub count: usize,
    pub failure: Option<io::Error>,
}

// One read into the room from `have` on: how many bytes it brought, and none at the end of the input. There is room for a byte at least: else no bytes would
// not mean that the input has ended.
// A proved loop has to end, and nothing says that a file stops putting a read off: the loop counts up to a number that no run reaches.
pub fn read_piece<R: Read>(
    clock: &impl Clock,
    file: &mut R,
    room: &mut [u8],
    have: usize,
) -> io::Result<usize>
    requires { have < length room.old }
    ensures { PieceIn room.new have result × (take have room.new ≡ take have room.old) }
{
    for _ in 0..u64::MAX {
        match file.read(&mut room[have..]) {
            Err(error) => wait_if_put_off(clock, error)?,
            read => return read,
        }
    }
    Err(put_off_too_often())
}

// The length of the text at the last piece, which had no bytes. A read that failed is no end: the text is not read then.
fn text_at_end(piece: io::Result<usize>, have: usize) -> io::Result<usize>
    ensures { result ≡ text_at_end piece have }
{
    piece?;
    Ok(have)
}

// Reads until the file ends or the room is full, and gives the length of what was read.
pub fn read_text<R: Read>(clock: &impl Clock, file: &mut R, room: &mut [u8]) -> io::Result<usize>
    ensures { TextIn room.new result }
{
    let mut have = 0;
    while have < room.len() {
        match read_piece(clock, file, room, have) {
            Ok(count) if 0 < count => have += count,
            last => return text_at_end(last, have),
        }
    }
    Ok(have)
}

// Writes the bytes, and goes on after a write that took a part of them. Fewer than all are taken only if a write failed.
pub fn write_out<W: Write>(clock: &impl Clock, file: &mut W, bytes: &[u8]) -> Taken
    ensures counted { result.count ≤ length bytes.now }
    ensures whole { IfNone result.failure (result.count ≡ length bytes.now) }
{
    let mut done = 0;
    for _ in 0..u64::MAX {
        if done == bytes.len() {
            return Taken {
                count: done,
                failure: None,
            };
        }
        match file.write(&bytes[done..]) {
            Ok(0) => return failed(done, io::Error::from(io::ErrorKind::WriteZero)),
            Ok(count) => done += count,
            Err(error) => {
                if let Err(error) = wait_if_put_off(clock, error) {
                    return failed(done, error);
                }
            }
        }
    }
    failed(done, put_off_too_often())
}

fn failed(count: usize, error: io::Error) -> Taken
    ensures { result ≡ record { count = count; failure = Some error } }
{
    Taken {
        count,
        failure: Some(error),
    }
}
