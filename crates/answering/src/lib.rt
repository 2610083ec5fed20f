// What every search answers, and what it does with the rooms lent to it before and after: refusals 1 to 11, a room filled, an answer in numbers.
// A part that the engines share and no entry. specs/Answers.antt says what an answer is, specs/Rooms.antt what becomes of the rooms.
#![tactic(auto)]

pub mod numbers; // numbers.rt: an answer as the paper's numbers
pub mod rooms; // rooms.rt: refusals 1 to 11, and a room filled

use floor::RouteLength;

// What a search with a limit is asked.
#[derive(Clone, Copy)]
pub struct Question {
    pub start: usize,
    pub goal: usize,
    pub limit: usize,
}

// What a search that is not refused comes to: 01's table.
#[derive(Clone, Copy)]
pub enum Outcome {
    // settled, the goal's least cost, how long the route is
    Found(usize, u32, RouteLength),
    // settled
    NoRoute(usize),
    // settled, the floor
    Stopped(usize, u32),
}

// An answer in numbers, for callers from C: `numbers_of` in specs/Answers.antt.
#[repr(C)]
#[derive(Clone, Copy)]
pub struct AnswerNumbers {
    pub kind: u64,
    pub refusal: u64,
    pub place: u64,
    pub settled: u64,
    pub number: u64,
    pub length: u64,
    pub p: u64,
    pub q: u64,
}
