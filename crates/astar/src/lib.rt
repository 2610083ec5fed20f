// A* for single questions: 02, R-4. It takes no limit: `spread` searches, and the octile estimate tells it which cells can't matter to the goal.
// specs/Astar.antt says what it answers and leaves; docs/PROMISES.md has a row for each public function.
#![tactic(auto)]

pub mod ends; // ends.rt: the end of the search, where only the settled cells keep their costs
pub mod rooms; // rooms.rt: the entry: refusals, and the rooms lent
