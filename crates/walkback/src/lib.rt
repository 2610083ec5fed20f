// The walk back from the goal, which writes the first of the least-cost routes and gives how long it is. The costs need be right only where cost and estimate
// together are small enough, so that it serves a search with an estimate too; the plain search has the estimate 0.
// A part of searches and no entry: what `write_route` requires, its callers prove. specs/Walks.antt says what that is.
#![tactic(auto)]

pub mod walks; // walks.rt: at each cell the lowest direction that gives it its cost

// The last step of a route to some cell, and the cell that it leaves.
#[derive(Clone, Copy)]
pub struct Back {
    pub direction: usize,
    pub from: usize,
}
