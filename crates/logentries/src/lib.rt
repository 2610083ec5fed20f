// What the route log asks of an entry: which answers can be logged, how many bytes a route has, and its bytes put into a room.
// specs/Entry.antt says what an entry is. A part of the log's reader and writer, and no entry: what its functions require, their callers prove.
#![tactic(auto)]

ghost use Rattle.std.specs.Prelude.{◌≡◌, ◌+◌, ◌≤◌, length};
ghost use Rattle.recordlayout.specs.Record.{record_size};
ghost use Rattle.logentries.specs.Entry.{greatest_length, route_size, route_bytes, no_route, kind_fits, can_be_logged, all_within};
ghost use Rattle.putting.specs.Put.{IsPut};

use answering::AnswerNumbers;
use floor::MARK;
use putting::{fill, put};
use recordlayout::RECORD_SIZE;
use recordlayout::fields::{all_zero, numbers_in};

// R-1: "a length up to 4,095".
const GREATEST_LENGTH: u64 = 4095;

// R-1: "a refusal number from 1 to 15".
const GREATEST_REFUSAL: u64 = 15;

// R-1: directions go up to 7, and the last record of a route is filled up with 255.
pub const GREATEST_DIRECTION: u8 = 7;

pub const FILLER: u8 = 255;

// The bytes of as many records as hold that many directions.
#[tactic(auto, unfolding(crate::specs::Entry::route_size))]
pub fn route_size(length: usize) -> usize
    requires { length ≤ greatest_length }
    ensures { result ≡ route_size length }
{
    (length + (RECORD_SIZE - 1)) / RECORD_SIZE * RECORD_SIZE
}

// Whether every byte lies between two.
pub fn all_within(least: u8, greatest: u8, bytes: &[u8]) -> bool
    ensures { result ≡ all_within least greatest bytes.now }
{
    bytes.iter().all(|byte| least <= *byte && *byte <= greatest)
}

// R-6: an answer other than found has no P and no Q, as it has no length.
fn no_route(n: AnswerNumbers) -> bool
    ensures { result ≡ no_route n }
{
    n.length == 0 && n.p == 0 && n.q == 0
}

// Kinds 1, 2 and 3 with the number and the length that each may have. R-6: P and Q of a found answer are not tested.
#[tactic(auto, unfolding(crate::specs::Entry::kind_fits))]
fn kind_fits(n: AnswerNumbers) -> bool
    ensures { result ≡ kind_fits n }
{
    let is_mark = n.number == MARK as u64;
    match n.kind {
        1 => !is_mark && n.length <= GREATEST_LENGTH,
        2 => is_mark && no_route(n),
        3 => !is_mark && no_route(n),
        _ => false,
    }
}

// Whether an answer record can be logged.
#[tactic(auto, unfolding(crate::specs::Entry::can_be_logged))]
pub fn can_be_logged(answer: &[u8]) -> bool
    requires { length answer.now ≡ record_size }
    ensures { result ≡ can_be_logged answer.now }
{
    let numbers = numbers_in(answer);
    if numbers.kind == 0 {
        let refusal = numbers.refusal;
        return 0 < refusal && refusal <= GREATEST_REFUSAL && all_zero(&answer[2..]);
    }
    all_zero(&answer[1..4]) && all_zero(&answer[24..]) && kind_fits(numbers)
}

// Puts the directions, and filler up to the end of their last record, and answers the place after them.
#[tactic(auto, using(crate::proofs::Sizes::size_holds), unfolding(crate::specs::Entry::route_bytes))]
pub fn put_route(directions: &[u8], room: &mut [u8], at: usize) -> usize
    requires { (length directions.now ≤ greatest_length) × (at + route_size (length directions.now) ≤ length room.old) }
    ensures { IsPut (route_bytes directions.now) room.old at result room.new }
{
    let count = directions.len();
    let left = route_size(count) - count;
    let end = put(directions, room, at);
    fill(FILLER, left, room, end)
}
