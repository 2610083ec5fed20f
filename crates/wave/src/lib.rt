// The wave: the search settles the cells in bands of costs, the cheaper first, from the start or from any front; docs/DECISIONS.md says why a wave and no heap.
// A part of searches and no entry: what its functions require, their callers prove. specs/Bands.antt says what that is, and what they keep.
#![tactic(auto)]

pub mod bands; // bands.rt: open cells are looked at in bands of costs, and their steps are taken

// The front of the wave, between two bands: the open cells are listed in the work room from place `from` on, `len` of them.
// The cells below `bound` are settled, `settled` of them.
#[derive(Clone, Copy)]
pub struct Front {
    pub from: usize,
    pub len: usize,
    pub bound: u32,
    pub settled: usize,
}

// A look at the next band: the open cells, the bound that it ends at, how many of them are below that, and whether its steps are to be taken.
#[derive(Clone, Copy)]
pub struct Band {
    pub front: Front,
    pub bound: u32,
    pub below: usize,
    pub more: bool,
}
