// The rows of a map text, read and written.
ghost use Rattle.std.specs.Prelude.{◌≡◌, ◌++◌, [], ◌∷◌, map, suc, ◌+◌, ◌*◌, ◌^◌, ◌≤◌, ◌<◌, length, take, drop};
ghost use Rattle.std.proofs.lemmas.List.Edits.{sets};
ghost use Rattle.floor.specs.Screen.{screened};
ghost use Rattle.textlines.specs.Line.{LF};
ghost use Rattle.putting.specs.Put.{IsPut};
ghost use Rattle.textrows.specs.Chars.{char_of};
ghost use Rattle.textrows.specs.Rows.{rows, read_row, read_rows};
ghost use Rattle.textrows.specs.Working.{byte_or_0, bytes_in, judged, Weights};

use crate::chars::{byte_of, char_of};
use floor::Refusal;
use putting::put;

// The first fault of one row. `row` is the text from that row on, and `at` the row's offset, for the places.
#[tactic(auto, using(crate::proofs::Judging::row_ends, crate::proofs::Judging::row_cell, crate::proofs::Judging::row_no_cell, crate::proofs::Judging::row_full, crate::proofs::Judging::row_too_long))]
fn judge_row(width: usize, at: usize, row: &[u8]) -> Result<(), Refusal>
    requires { at + length row.now < 2 ^ 64 }
    ensures { screened result ≡ judged (read_row width at row.now) }
{
    for (x, byte) in row[..width.min(row.len())].iter().enumerate() {
        if byte_of(*byte).is_none() {
            return Err(Refusal::NoCell(at + x));
        }
    }
    if row.len() <= width {
        return Err(Refusal::EndsTooSoon(at + row.len()));
    }
    if row[width] != b'\n' {
        return Err(Refusal::NoLineEnd(at + width));
    }
    Ok(())
}

// The first fault of the rows that begin at `from`, and of what follows them.
#[tactic(auto, using(crate::proofs::Judging::row_there, crate::proofs::Judging::rows_fault, crate::proofs::Judging::rows_on, crate::proofs::Judging::further_byte, crate::proofs::Judging::text_ends))]
pub fn judge_rows(width: usize, height: usize, from: usize, text: &[u8]) -> Result<(), Refusal>
    requires { from ≤ length text.now }
    ensures { screened result ≡ judged (read_rows width height from (drop from text.now)) }
{
    let mut at = from;
    for _ in 0..height {
        judge_row(width, at, &text[at..])?;
        at += width + 1;
    }
    if at < text.len() {
        return Err(Refusal::FurtherByte(at));
    }
    Ok(())
}

// Stores the cells of one row from `to` on. `row` is the text from that row on.
fn fill_row(width: usize, row: &[u8], cells: &mut [u8], to: usize)
    requires { (width ≤ length row.now) × (to + width ≤ length cells.old) }
    ensures { cells.new ≡ sets cells.old to (map byte_or_0 (take width row.now)) }
{
    for x in 0..width {
        // a row that has been judged has cells alone
        cells[to + x] = byte_of(row[x]).unwrap_or(0);
    }
}

// Stores the cells of the rows that begin at `from`.
pub fn fill_rows(width: usize, height: usize, from: usize, text: &[u8], cells: &mut [u8])
    requires { (from + height * suc width ≤ length text.now) × (height * width ≤ length cells.old) }
    ensures { cells.new ≡ sets cells.old 0 (bytes_in width height (drop from text.now)) }
{
    for y in 0..height {
        fill_row(width, &text[from + y * (width + 1)..], cells, y * width);
    }
}

#[tactic(auto, using(crate::proofs::Filling::mapped_length))]
fn put_cells(width: usize, cells: &[u8], room: &mut [u8], at: usize) -> usize
    requires { Weights cells.now × (width ≤ length cells.now) × (at + width ≤ length room.old) }
    ensures { IsPut (map char_of (take width cells.now)) room.old at result room.new }
{
    for x in 0..width {
        room[at + x] = char_of(cells[x]);
    }
    at + width
}

// Puts one row and its LF. `cells` is the map from that row on.
fn put_row(width: usize, cells: &[u8], room: &mut [u8], at: usize) -> usize
    requires { Weights cells.now × (width ≤ length cells.now) × (at + suc width ≤ length room.old) }
    ensures { IsPut (map char_of (take width cells.now) ++ (LF ∷ [])) room.old at result room.new }
{
    let end = put_cells(width, cells, room, at);
    put(b"\n", room, end)
}

pub fn put_rows(width: usize, height: usize, map: &[u8], room: &mut [u8], at: usize) -> usize
    requires { Weights map.now × (height * width ≤ length map.now) × (at + height * suc width ≤ length room.old) }
    ensures { IsPut (rows width height map.now) room.old at result room.new }
{
    let mut next = at;
    for y in 0..height {
        next = put_row(width, &map[y * width..], room, next);
    }
    next
}
