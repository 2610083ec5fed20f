// The plain search: 01, "The search". It settles the cells in bands, the cheaper first; docs/DECISIONS.md says why a wave and no heap.
// specs/Search.antt says what it answers and leaves; docs/PROMISES.md has a row for each public function.
#![tactic(auto)]

pub mod rooms; // rooms.rt: the entry: refusals, and the rooms lent
