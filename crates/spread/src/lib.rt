// The spread: a search that takes its open cells in any order and may take one again. An estimate says which are worth taking, and when it can end.
// A part of searches and no entry: what its functions require, their callers prove. specs/Listing.antt says what that is, and what they keep.
#![tactic(auto)]

pub mod lists; // lists.rt: open cells are listed, and their steps are taken
pub mod passes; // passes.rt: passes over the list, until no listed cell can matter to the goal

use floor::{Floor, Place};

// What the search aims at: the goal, and its place, worked out once for the estimate.
#[derive(Clone, Copy)]
pub struct Aim {
    pub floor: Floor,
    pub goal: usize,
    pub place: Place,
}

// A pass takes the cells whose cost and estimate together are at most this much above the least. Any number is right; a smaller one means more passes, a
// larger one more cells that are taken again, or for nothing (bench/README.md).
pub const WIDTH: u64 = 200;
