// Cells by cost and then by cell number, as L has them: which of the listed cells come before a bound or a key, and the costs that are cut at a key.
// A part of searches and no entry: what its functions require, their callers prove. specs/Listed.antt says what they answer.
#![tactic(auto)]

pub mod cuts; // cuts.rt: keys, and the costs that are taken back
pub mod lists; // lists.rt: the cells that are listed in a room

// A cell's key is its cost times this and its number: `key` in the order of L (settling/specs/Order.antt).
pub const KEY_BASE: u64 = 4294967296;
