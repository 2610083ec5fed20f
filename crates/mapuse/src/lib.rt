// Which maps a program can use: 01, "The program". specs/Use.antt says which, and what is answered about the others.
#![tactic(auto)]

ghost use Rattle.mapuse.specs.Use.{IsUsed};

use floor::{Floor, Refusal};
use maptext::{judge_map, read_map};

// 01: text above 4,195 bytes is refused: a header of at most 35 bytes, and 64 rows of 65.
pub const GREATEST_TEXT: usize = 4195;

// 01: "Sides up to 64".
pub const GREATEST_USED_SIDE: usize = 64;

// The cells of the greatest map that can be used.
pub const GREATEST_USED_CELLS: usize = GREATEST_USED_SIDE * GREATEST_USED_SIDE;

// The sides are looked at before the reader stores a byte: 14 comes after its refusals, and alters nothing either.
pub fn use_map(text: &[u8], cells: &mut [u8]) -> Result<Floor, Refusal>
    ensures { IsUsed text.now cells.old result cells.new }
{
    if GREATEST_TEXT < text.len() {
        return Err(Refusal::TooBig);
    }
    let floor = judge_map(text, cells.len())?;
    if GREATEST_USED_SIDE < floor.width || GREATEST_USED_SIDE < floor.height {
        return Err(Refusal::TooBig);
    }
    read_map(text, cells)
}
