// The refusals that entries share: 1 to 3 of a map, 4 of its ways, 5 to 8 of a start and a goal. 01, "Refusal numbers"; floor/specs/Refusal.antt says when each applies.
#![tactic(auto)]

ghost use Rattle.std.specs.Prelude.{◌≡◌, ◌<◌, leb, ltb, length, get_or, position, IfSome, IfNone};
ghost use Rattle.paths.specs.Below.{every};
ghost use Rattle.floor.specs.Place.{greatest_weight, is_side, has_sides};
ghost use Rattle.floor.specs.Screen.{screened};
ghost use Rattle.floor.specs.Refusal.{HasPassed, screen, map_lines, floor_lines, ends_lines, question_lines, first_above};

use floor::{Floor, GREATEST_SIDE, GREATEST_WEIGHT, Refusal};

#[tactic(auto, unfolding(floor::specs::Place::is_side))]
fn is_side(n: usize) -> bool
    ensures { result ≡ is_side n }
{
    0 < n && n <= GREATEST_SIDE
}

#[tactic(auto, unfolding(floor::specs::Place::has_sides))]
fn has_sides(f: Floor) -> bool
    ensures { result ≡ has_sides f }
{
    is_side(f.width) && is_side(f.height)
}

// Whether every byte is a weight, by the greatest of them. The loop has no way out before its end: so the machine can look at many bytes at once, and does.
fn has_weights(map: &[u8]) -> bool
    ensures { result ≡ every (λ v. leb (get_or map.now v 0) greatest_weight) (length map.now) }
{
    let mut greatest = 0;
    for byte in map {
        if *byte > greatest {
            greatest = *byte;
        }
    }
    greatest <= GREATEST_WEIGHT
}

fn seek_above(map: &[u8]) -> Option<usize>
    ensures { result ≡ position (λ b. ltb greatest_weight b) map.now }
{
    map.iter().position(|byte| *byte > GREATEST_WEIGHT)
}

// The lowest cell whose byte is no weight. Only a map that is to be refused is gone through byte by byte.
fn first_above(map: &[u8]) -> Option<usize>
    ensures found { IfSome result (λ v. (v ≡ first_above map.now) × (v < length map.now)) }
    ensures none { IfNone result (first_above map.now ≡ length map.now) }
{
    if has_weights(map) {
        return None;
    }
    seek_above(map)
}

// Refusals 1 to 3. The writer stops here: it does not look at ways.
#[tactic(auto, using(crate::proofs::Sides::few))]
pub fn screen_map(f: Floor, map: &[u8]) -> Result<(), Refusal>
    ensures { screened result ≡ screen (map_lines f map.now) }
{
    if !has_sides(f) {
        return Err(Refusal::BadSide);
    }
    if map.len() != f.width * f.height {
        return Err(Refusal::WrongLength);
    }
    match first_above(map) {
        Some(place) => Err(Refusal::NoWeight(place)),
        None => Ok(()),
    }
}

// Refusals 1 to 4, which the search and the checks try first. After `Ok` the step test may be called.
pub fn screen_floor(f: Floor, map: &[u8]) -> Result<(), Refusal>
    ensures { screened result ≡ screen (floor_lines f map.now) }
{
    screen_map(f, map)?;
    if f.ways != 4 && f.ways != 8 {
        return Err(Refusal::BadWays);
    }
    Ok(())
}

// Refusals 5 to 8 of a question's start and goal.
fn screen_ends(f: Floor, map: &[u8], start: usize, goal: usize) -> Result<(), Refusal>
    requires { HasPassed f map.now }
    ensures { screened result ≡ screen (ends_lines f map.now start goal) }
{
    if map.len() <= start {
        return Err(Refusal::StartOffMap);
    }
    if map.len() <= goal {
        return Err(Refusal::GoalOffMap);
    }
    if map[start] == 0 {
        return Err(Refusal::StartBlocked);
    }
    if map[goal] == 0 {
        return Err(Refusal::GoalBlocked);
    }
    Ok(())
}

// Refusals 1 to 8, which the search and the route check try first.
pub fn screen_question(f: Floor, map: &[u8], start: usize, goal: usize) -> Result<(), Refusal>
    ensures { screened result ≡ screen (question_lines f map.now start goal) }
{
    screen_floor(f, map)?;
    screen_ends(f, map, start, goal)
}
