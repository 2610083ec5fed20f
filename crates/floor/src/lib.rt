// The floor: the value that travels beside a map's bytes, the table of directions, the step test and all steps of a cell; what of a floor is refused, and when
// a question has passed.
// specs/ says what they mean; docs/PROMISES.md has a row for each public function.
#![tactic(auto)]

ghost use Rattle.std.specs.Prelude.{◌≡◌};
ghost use Rattle.floor.specs.Place.{floor_of};

pub mod steps; // steps.rt: the step test
pub mod neighbours; // neighbours.rt: what stands around a cell, and all its steps
pub mod refusals; // refusals.rt: the refusals by name, with their numbers
pub mod written; // written.rt: a writer's answer for callers from C

pub use refusals::Refusal;
pub use written::WrittenNumbers;

// 01, as 02 R-7 has it: width and height are 1 to 1,024 each.
pub const GREATEST_SIDE: usize = 1024;

// 01: 0 blocked, 1 to 9 the weight of an open cell.
pub const GREATEST_WEIGHT: u8 = 9;

// A map's width, height and ways travel together as one value. Any numbers may stand in it: the crate `screens` judges them.
#[derive(Clone, Copy)]
pub struct Floor {
    pub width: usize,
    pub height: usize,
    pub ways: usize,
}

impl Floor {
    // As callers from C give it: every number comes in at 32 bits and is widened, so that none is narrowed before it is judged.
    pub fn of(width: u32, height: u32, ways: u32) -> Floor
        ensures { result ≡ floor_of width height ways }
    {
        Floor {
            width: width as usize,
            height: height as usize,
            ways: ways as usize,
        }
    }
}

// What a straight and a diagonal step cost for each unit of their weight: 99 / 70 is a little more than the root of 2.
pub const STRAIGHT: u32 = 70;

pub const DIAGONAL: u32 = 99;

// No step costs less: a straight one between two cells of weight 1.
pub const LEAST_STEP: u32 = STRAIGHT * 2;

// And no diagonal one less than this, between two such cells.
pub const LEAST_DIAGONAL: u32 = DIAGONAL * 2;

// 01: MARK means "no cost".
pub const MARK: u32 = 4294967295;

#[derive(Clone, Copy)]
pub struct Direction {
    pub dx: i32,
    pub dy: i32,
    pub unit: u32,
}

// 01's table: N, NE, E, SE, S, SW, W, NW. x grows east, y grows south.
pub const DIRECTIONS: [Direction; 8] = [
    Direction {
        dx: 0,
        dy: -1,
        unit: STRAIGHT,
    },
    Direction {
        dx: 1,
        dy: -1,
        unit: DIAGONAL,
    },
    Direction {
        dx: 1,
        dy: 0,
        unit: STRAIGHT,
    },
    Direction {
        dx: 1,
        dy: 1,
        unit: DIAGONAL,
    },
    Direction {
        dx: 0,
        dy: 1,
        unit: STRAIGHT,
    },
    Direction {
        dx: -1,
        dy: 1,
        unit: DIAGONAL,
    },
    Direction {
        dx: -1,
        dy: 0,
        unit: STRAIGHT,
    },
    Direction {
        dx: -1,
        dy: -1,
        unit: DIAGONAL,
    },
];

// A column and a row, both counted from 1, so that 0 is off the map to the west or the north.
#[derive(Clone, Copy)]
pub struct Place {
    pub column: usize,
    pub row: usize,
}

// The weights of a cell and of its four straight neighbours, 0 where there is none on the map.
#[derive(Clone, Copy)]
pub struct Around {
    pub weight: u32,
    pub north: u32,
    pub east: u32,
    pub south: u32,
    pub west: u32,
}

// How long a route is: its steps, and P and Q of its true length. `route_length` in specs/Length.antt.
#[derive(Clone, Copy)]
pub struct RouteLength {
    pub steps: usize,
    pub p: u32,
    pub q: u32,
}

// Why a step is not allowed: the first of these that applies.
#[derive(Clone, Copy)]
pub enum Reason {
    NoSuchDirection,
    LeftOffMap,
    LeftBlocked,
    LeavesMap,
    EntersBlocked,
    CutsCorner,
}

// A step: the cell at its other end, and what it costs.
#[derive(Clone, Copy)]
pub struct Step {
    pub cell: usize,
    pub cost: u32,
}
