// The rooms that a search is lent: whether they are long enough, and a room filled with one number.
ghost use Rattle.std.specs.Prelude.{◌≡◌, length, replicate};
ghost use Rattle.floor.specs.Screen.{screened};
ghost use Rattle.floor.specs.Refusal.{screen};
ghost use Rattle.answering.specs.Rooms.{length_lines};

use floor::{Floor, Refusal};

// Refusals 1 to 8 of the question, then 9 to 11 of the rooms' lengths.
pub fn screen_lengths(
    f: Floor,
    map: &[u8],
    start: usize,
    goal: usize,
    costs: usize,
    work: usize,
    route: usize,
) -> Result<(), Refusal>
    ensures { screened result ≡ screen (length_lines f map.now start goal costs work route) }
{
    screens::screen_question(f, map, start, goal)?;
    let cells = map.len();
    if costs < cells {
        return Err(Refusal::ShortCosts);
    }
    if work < 2 * cells {
        return Err(Refusal::ShortWork);
    }
    if route < cells {
        return Err(Refusal::ShortRoute);
    }
    Ok(())
}

pub fn fill(room: &mut [u32], value: u32)
    ensures { room.new ≡ replicate (length room.old) value }
{
    room.fill(value);
}
