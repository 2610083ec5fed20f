// The checks of claims for C, in an archive with no code of a search: each call of `claims` is handed on from here, with the promise that it has there.
#![tactic(auto)]

ghost use Rattle.std.specs.Prelude.{◌≡◌};
ghost use Rattle.floor.specs.Place.{floor_of};
ghost use Rattle.claims.specs.Route.{claim, route_verdict, packed};
ghost use Rattle.claims.specs.Table.{table_verdict, as_fault};

#[unsafe(no_mangle)]
pub extern "C" fn fradnumber_check_route(
    width: u32,
    height: u32,
    ways: u32,
    map: &[u8],
    start: u32,
    goal: u32,
    cost: u32,
    route: &[u8],
) -> u64
    ensures { result ≡ packed (route_verdict (floor_of width height ways) map.now (claim start goal cost route.now)) }
{
    claims::routes::fradnumber_check_route(width, height, ways, map, start, goal, cost, route)
}

#[unsafe(no_mangle)]
pub extern "C" fn fradnumber_check_table(
    width: u32,
    height: u32,
    ways: u32,
    map: &[u8],
    start: u32,
    costs: &[u32],
) -> u64
    ensures { result ≡ packed (as_fault (table_verdict (floor_of width height ways) map.now start costs.now)) }
{
    claims::tables::fradnumber_check_table(width, height, ways, map, start, costs)
}
