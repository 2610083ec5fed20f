// The check of a claimed cost table: 01, "Claims".
ghost use Rattle.std.specs.Prelude.{◌≡◌, ◌≤◌, ◌<◌, length};
ghost use Rattle.paths.specs.Graph.{MARK};
ghost use Rattle.floor.specs.Place.{cells, floor_of};
ghost use Rattle.floor.specs.Screen.{screened};
ghost use Rattle.floor.specs.Refusal.{HasPassed, screen};
ghost use Rattle.claims.specs.Route.{value_of, packed};
ghost use Rattle.claims.specs.Table.{table_lines, owed, breaking, judged, numbers_of, table_verdict, as_fault};

use floor::{Floor, MARK, Refusal};

// Refusals 1 to 5 and 7, then 9. With the start as its goal too, a question is never refused 6 or 8.
fn screen_table(f: Floor, map: &[u8], start: u32, costs: &[u32]) -> Result<(), Refusal>
    ensures { screened result ≡ screen (table_lines f map.now start costs.now) }
{
    screens::screen_question(f, map, start as usize, start as usize)?;
    if costs.len() < map.len() {
        return Err(Refusal::ShortCosts);
    }
    Ok(())
}

// What the rule asks of `cell`: a blocked cell has MARK.
#[tactic(auto, unfolding(crate::specs::Table::owed))]
fn owed_at(f: Floor, map: &[u8], start: u32, costs: &[u32], cell: usize) -> u64
    requires { HasPassed f map.now × (cells f ≤ length costs.now) × (cell < cells f) }
    ensures { result ≡ owed f map.now start costs.now cell }
{
    if map[cell] == 0 {
        return MARK as u64;
    }
    dues::due_at(f, map, start as usize, costs, cell)
}

// The lowest cell that breaks the rule.
#[tactic(auto, using(paths::proofs::Below::lowest_next, paths::proofs::Below::lowest_found), unfolding(crate::specs::Table::breaks, crate::specs::Table::breaking))]
fn first_breaking(f: Floor, map: &[u8], start: u32, costs: &[u32]) -> Option<usize>
    requires { HasPassed f map.now × (cells f ≤ length costs.now) }
    ensures { numbers_of (Ok result) ≡ judged f (breaking f map.now start costs.now) }
{
    for cell in 0..map.len() {
        if costs[cell] as u64 != owed_at(f, map, start, costs, cell) {
            return Some(cell);
        }
    }
    None
}

// Refused; or none, exactly for the right table; or the lowest cell that breaks the rule. A table settles a claimed "none".
// Entries past width × height are not looked at. Each direction of a cell is looked at once at most.
#[tactic(auto, unfolding(crate::specs::Table::table_verdict))]
pub fn check_table(
    f: Floor,
    map: &[u8],
    start: u32,
    costs: &[u32],
) -> Result<Option<usize>, Refusal>
    ensures { numbers_of result ≡ table_verdict f map.now start costs.now }
{
    screen_table(f, map, start, costs)?;
    Ok(first_breaking(f, map, start, costs))
}

// As the route check's answer: high half the number (0 if the table is right, 40 if it is not), low half the place, or the cell.
fn pack(verdict: Result<Option<usize>, Refusal>) -> u64
    requires { value_of (as_fault (numbers_of verdict)) ≤ MARK }
    ensures { result ≡ packed (as_fault (numbers_of verdict)) }
{
    match verdict {
        Ok(None) => 0,
        Ok(Some(cell)) => 40 * 4294967296 + cell as u64,
        Err(refusal) => refusal.number() as u64 * 4294967296 + refusal.place() as u64,
    }
}

// The check for callers from C.
#[unsafe(no_mangle)]
pub extern "C" fn fradnumber_check_table(
    width: u32,
    height: u32,
    ways: u32,
    map: &[u8],
    start: u32,
    costs: &[u32],
) -> u64
    ensures { result ≡ packed (as_fault (table_verdict (floor_of width height ways) map.now start costs.now)) }
{
    let f = Floor::of(width, height, ways);
    pack(check_table(f, map, start, costs))
}
