// The last band of the plain search: it is cut at the goal or at the limit, and its cells are not expanded.
// A part of searches and no entry: what `finish` requires, its callers prove. specs/Last.antt says what that is, and what it answers and leaves.
#![tactic(auto)]

pub mod last; // last.rt: the cut, the route and the answer
