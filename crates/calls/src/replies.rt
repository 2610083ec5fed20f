// How a reply goes out: piece after piece, each written as it is, or counted and summed up in a digest.
use crate::wire::{PIECE, put_numbers, short};
use std::io;
use std::io::{Stdout, Write};

// Two numbers that stand for bytes: how many they are and their Adler-32.
#[derive(Clone, Copy)]
struct Digest {
    length: u64,
    sum: u32,
}

// A reply on its way: where its bytes go, and the digest that stands for them, if they are not written themselves.
#[derive(Drop)]
pub(crate) struct Reply {
    output: Stdout,
    digest: Option<Digest>,
}

// Adler-32 of some bytes and a piece after them, from that of the bytes, as Python's zlib has it: two sums modulo the greatest prime below 2 to the 16.
fn adler(sum: u32, piece: &[u8]) -> u32 {
    let mut low = sum % 65536;
    let mut high = sum / 65536;
    for byte in piece {
        low = (low + *byte as u32) % 65521;
        high = (high + low) % 65521;
    }
    high * 65536 + low
}

impl Reply {
    pub(crate) fn begun(output: Stdout, is_digest: bool) -> Reply {
        let none = Digest { length: 0, sum: 1 };
        Reply {
            output,
            digest: is_digest.then_some(none),
        }
    }

    pub(crate) fn send_bytes(&mut self, piece: &[u8]) -> io::Result<()> {
        match self.digest {
            None => self.output.write_all(piece),
            Some(before) => {
                self.digest = Some(Digest {
                    length: before.length.wrapping_add(piece.len() as u64),
                    sum: adler(before.sum, piece),
                });
                Ok(())
            }
        }
    }

    // `wire` is lent to hold a piece.
    pub(crate) fn send_numbers(&mut self, room: &[u32], wire: &mut [u8]) -> io::Result<()> {
        for piece in room.chunks(PIECE) {
            let bytes = put_numbers(wire, piece)?;
            self.send_bytes(bytes)?;
        }
        Ok(())
    }

    // Writes the digest, if there is one: all else has gone out.
    pub(crate) fn end(mut self, wire: &mut [u8]) -> io::Result<()> {
        let Some(digest) = self.digest else {
            return Ok(());
        };
        let bytes = put_numbers(wire, &[short(digest.length), digest.sum])?;
        self.output.write_all(bytes)
    }
}
