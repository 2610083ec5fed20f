// The check of a claimed route: 01, "Claims".
ghost use Rattle.std.specs.Prelude.{◌≡◌, ◌≤◌};
ghost use Rattle.paths.specs.Graph.{MARK};
ghost use Rattle.floor.specs.Place.{floor_of};
ghost use Rattle.floor.specs.Refusal.{screen};
ghost use Rattle.floor.specs.Screen.{Screen, screened};
ghost use Rattle.claims.specs.Route.{claim, claim_lines, fault_of, fault_number, tried, route_verdict, numbers_of, value_of, packed};

use crate::{Fault, FaultAt};
use floor::{Floor, Reason, Refusal};

// Refusals 1 to 8, then 12.
fn screen_claim(
    f: Floor,
    map: &[u8],
    start: u32,
    goal: u32,
    cost: u32,
    route: &[u8],
) -> Result<(), Refusal>
    ensures { screened result ≡ screen (claim_lines f map.now (claim start goal cost route.now)) }
{
    screens::screen_question(f, map, start as usize, goal as usize)?;
    if map.len() <= route.len() {
        return Err(Refusal::LongRoute);
    }
    Ok(())
}

// A route stands on an open cell at every step, so that the two reasons of the cell left never come up.
impl From<Reason> for Fault {
    ghost from_gives = { λ reason fault. fault_number fault ≡ fault_of reason };

    fn from(reason: Reason) -> Fault {
        match reason {
            Reason::NoSuchDirection => Fault::NoSuchDirection,
            Reason::LeftOffMap => Fault::LeavesMap,
            Reason::LeftBlocked => Fault::EntersBlocked,
            Reason::LeavesMap => Fault::LeavesMap,
            Reason::EntersBlocked => Fault::EntersBlocked,
            Reason::CutsCorner => Fault::CutsCorner,
        }
    }
}

// Tries the steps in order, and gives the cost of a claim that holds. What has been spent never wraps: a route has fewer steps than there are cells.
fn try_steps(
    f: Floor,
    map: &[u8],
    start: u32,
    goal: u32,
    cost: u32,
    route: &[u8],
) -> Result<u32, FaultAt>
    requires { screen (claim_lines f map.now (claim start goal cost route.now)) ≡ Screen.Passed }
    ensures { numbers_of (Ok result) ≡ tried f map.now (claim start goal cost route.now) start 0 0 route.now }
{
    let mut cell = start as usize;
    let mut spent: u32 = 0;
    for (place, direction) in route.iter().enumerate() {
        match floor::steps::step_test(f, map, cell, *direction as usize) {
            Ok(step) => {
                cell = step.cell;
                spent += step.cost;
            }
            Err(reason) => return Err(FaultAt(Fault::from(reason), place)),
        }
    }
    if cell != goal as usize {
        return Err(FaultAt(Fault::NotAtGoal, route.len()));
    }
    if spent != cost {
        return Err(FaultAt(Fault::OtherCost, route.len()));
    }
    Ok(spent)
}

// Refused; or the first fault, in the order of the steps; or the cost of a claim that holds. It need not be a least-cost route.
#[tactic(auto, unfolding(crate::specs::Route::route_verdict))]
pub fn check_route(
    f: Floor,
    map: &[u8],
    start: u32,
    goal: u32,
    cost: u32,
    route: &[u8],
) -> Result<Result<u32, FaultAt>, Refusal>
    ensures { numbers_of result ≡ route_verdict f map.now (claim start goal cost route.now) }
{
    screen_claim(f, map, start, goal, cost, route)?;
    Ok(try_steps(f, map, start, goal, cost, route))
}

// 01: high half the refusal or fault number (0 if the claim holds), low half the place, or the cost if it holds.
fn pack(verdict: Result<Result<u32, FaultAt>, Refusal>) -> u64
    requires { value_of (numbers_of verdict) ≤ MARK }
    ensures { result ≡ packed (numbers_of verdict) }
{
    match verdict {
        Ok(Ok(cost)) => cost as u64,
        Ok(Err(FaultAt(fault, place))) => fault as u64 * 4294967296 + place as u64,
        Err(refusal) => refusal.number() as u64 * 4294967296 + refusal.place() as u64,
    }
}

// The collector's call.
#[unsafe(no_mangle)]
pub extern "C" fn fradnumber_check_route(
    width: u32,
    height: u32,
    ways: u32,
    map: &[u8],
    start: u32,
    goal: u32,
    cost: u32,
    route: &[u8],
) -> u64
    ensures { result ≡ packed (route_verdict (floor_of width height ways) map.now (claim start goal cost route.now)) }
{
    let f = Floor::of(width, height, ways);
    pack(check_route(f, map, start, goal, cost, route))
}
