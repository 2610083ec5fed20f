// Bytes put into a lent room, one list after the other. specs/Put.antt says what that leaves.
// A part of whoever writes texts and records, and no entry: what its functions require, their callers prove.
#![tactic(auto)]

ghost use Rattle.std.specs.Prelude.{◌+◌, ◌≤◌, length, replicate};
ghost use Rattle.putting.specs.Put.{IsPut};

// Puts `bytes` into the room at a place, and answers the place after them.
pub fn put(bytes: &[u8], room: &mut [u8], at: usize) -> usize
    requires { at + length bytes.now ≤ length room.old }
    ensures { IsPut bytes.now room.old at result room.new }
{
    let end = at + bytes.len();
    room[at..end].copy_from_slice(bytes);
    end
}

// Puts one byte so many times, and answers the place after them.
pub fn fill(byte: u8, count: usize, room: &mut [u8], at: usize) -> usize
    requires { at + count ≤ length room.old }
    ensures { IsPut (replicate count byte) room.old at result room.new }
{
    let end = at + count;
    room[at..end].fill(byte);
    end
}
