// The check of a claimed route and the check of a claimed cost table: 01, "Claims". They stand on the step rules, and on what the table rule asks of a cell.
// specs/Route.antt and specs/Table.antt say what they answer; docs/PROMISES.md has a row for each public function.
#![tactic(auto)]

pub mod routes; // routes.rt: the check of a claimed route, and the collector's entry to it
pub mod tables; // tables.rt: the check of a claimed cost table, and the entry to it from C

// Why a claimed route does not hold: 01's faults by name.
#[derive(Clone, Copy)]
pub enum Fault {
    NoSuchDirection = 41,
    LeavesMap = 42,
    EntersBlocked = 43,
    CutsCorner = 44,
    NotAtGoal = 45,
    OtherCost = 46,
}

// A fault, and the place of its step, or the route's length.
#[derive(Clone, Copy)]
pub struct FaultAt(pub Fault, pub usize);
