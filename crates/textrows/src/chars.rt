// A cell and its character.
ghost use Rattle.std.specs.Prelude.{◌≡◌, ◌≤◌};
ghost use Rattle.floor.specs.Place.{greatest_weight};
ghost use Rattle.textrows.specs.Cell.{byte_in};
ghost use Rattle.textrows.specs.Chars.{char_of, cell_of};

// The byte of the cell in the map, if the character is a cell's. 01: "A cell character is read by this rule".
#[tactic(auto, unfolding(crate::specs::Chars::cell_of))]
pub(crate) fn byte_of(b: u8) -> Option<u8>
    ensures { result ≡ byte_in (cell_of b) }
{
    match b {
        b'.' | b'G' => Some(1),
        b'1'..=b'9' => Some(b - b'0'),
        b'@' | b'O' | b'T' => Some(0),
        _ => None,
    }
}

// The writer uses `@`, `.` for weight 1, and `2` to `9`.
pub(crate) fn char_of(weight: u8) -> u8
    requires { weight ≤ greatest_weight }
    ensures { result ≡ char_of weight }
{
    match weight {
        0 => b'@',
        1 => b'.',
        _ => b'0' + weight,
    }
}
