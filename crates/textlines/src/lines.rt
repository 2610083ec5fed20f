// The lines of a header, read and written.
ghost use Rattle.std.specs.Prelude.{◌≡◌, ◌+◌, ◌≤◌, ◌<◌, length, drop};
ghost use Rattle.floor.specs.Place.{greatest_side};
ghost use Rattle.putting.specs.Put.{IsPut};
ghost use Rattle.textlines.specs.Line.{digits, side_line, begins, IsSide};
ghost use Rattle.textlines.specs.Working.{run_value, greatest_word, digit_at};

use floor::GREATEST_SIDE;
use putting::put;

fn narrowed(digit: usize) -> u8
    requires { digit < 10 }
    ensures { result ≡ 48 + digit }
{
    b'0' + digit as u8
}

#[tactic(auto, unfolding(crate::specs::Working::digit_at))]
fn put_digit(n: usize, unit: usize, room: &mut [u8], at: usize) -> usize
    requires { (0 < unit) × (at + length (digit_at unit n) ≤ length room.old) }
    ensures { IsPut (digit_at unit n) room.old at result room.new }
{
    if n < unit {
        return at;
    }
    room[at] = narrowed(n / unit % 10);
    at + 1
}

fn put_digits(n: usize, room: &mut [u8], at: usize) -> usize
    requires { (0 < n) × (n ≤ greatest_side) × (at + length (digits 4 n) ≤ length room.old) }
    ensures { IsPut (digits 4 n) room.old at result room.new }
{
    let hundreds = put_digit(n, 1000, room, at);
    let tens = put_digit(n, 100, room, hundreds);
    let ones = put_digit(n, 10, room, tens);
    put_digit(n, 1, room, ones)
}

fn digit_count(n: usize) -> usize
    ensures { (result ≡ length (digits 4 n)) × (result ≤ 4) }
{
    match n {
        0..=9 => 1,
        10..=99 => 2,
        100..=999 => 3,
        _ => 4,
    }
}

// The length of a side's line: the word, the digits, LF.
pub fn side_line_length(word: &[u8], n: usize) -> usize
    requires { length word.now ≤ greatest_word }
    ensures { result ≡ length (side_line word.now n) }
{
    word.len() + digit_count(n) + 1
}

pub fn put_side_line(word: &[u8], n: usize, room: &mut [u8], at: usize) -> usize
    requires { (0 < n) × (n ≤ greatest_side) × (at + length (side_line word.now n) ≤ length room.old) }
    ensures { IsPut (side_line word.now n) room.old at result room.new }
{
    let digits = put(word, room, at);
    let end = put_digits(n, room, digits);
    put(b"\n", room, end)
}

// The number that the digits at `from` give. It is looked at no further once it has four digits, so it stays below 10,000.
#[tactic(auto, using(crate::proofs::Sides::run_full, crate::proofs::Sides::run_stops))]
fn run_value(text: &[u8], from: usize) -> usize
    ensures { result ≡ run_value 0 (drop from text.now) }
{
    let mut n = 0;
    for byte in &text[from.min(text.len())..] {
        if 1000 <= n || !byte.is_ascii_digit() {
            return n;
        }
        n = 10 * n + (*byte - b'0') as usize;
    }
    n
}

// The text has to have, byte for byte, the line that the writer would write: that rules out a leading zero, a second space, CR before LF.
fn has_side_line(word: &[u8], n: usize, text: &[u8]) -> bool
    requires { (length word.now ≤ greatest_word) × (0 < n) × (n ≤ greatest_side) }
    ensures { result ≡ begins (side_line word.now n) text.now }
{
    let mut room = [0u8; 12];
    let end = put_side_line(word, n, &mut room, 0);
    text.starts_with(&room[..end])
}

// The side whose line the text begins with.
#[tactic(auto, using(crate::proofs::Sides::side_in_by_run, std::proofs::lemmas::Bool::Decides::nat_tests))]
fn side_in(word: &[u8], text: &[u8]) -> Option<usize>
    requires { length word.now ≤ greatest_word }
    ensures { IsSide word.now text.now result }
{
    let n = run_value(text, word.len());
    if 0 < n && n <= GREATEST_SIDE && has_side_line(word, n, text) {
        return Some(n);
    }
    None
}

// The lines of a header are looked for at an offset.
pub fn begins_at(line: &[u8], text: &[u8], at: usize) -> bool
    requires { at ≤ length text.now }
    ensures { result ≡ begins line.now (drop at text.now) }
{
    text[at..].starts_with(line)
}

pub fn side_at(word: &[u8], text: &[u8], at: usize) -> Option<usize>
    requires { (length word.now ≤ greatest_word) × (at ≤ length text.now) }
    ensures { IsSide word.now (drop at text.now) result }
{
    side_in(word, &text[at..])
}
