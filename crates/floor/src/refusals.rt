// The refusals by name: 01, "Refusal numbers", with those that 02 added. A refusal that has a place carries it.
ghost use Rattle.std.specs.Prelude.{◌≡◌};
ghost use Rattle.floor.specs.Refusals.{number_of, place_of};

use std::fmt;

#[derive(Clone, Copy)]
pub enum Refusal {
    // a map: its width or height, its length, the lowest byte that is no weight, its ways
    BadSide,
    WrongLength,
    NoWeight(usize),
    BadWays,
    // a question's start and goal
    StartOffMap,
    GoalOffMap,
    StartBlocked,
    GoalBlocked,
    // the rooms lent to a search
    ShortCosts,
    ShortWork,
    ShortRoute,
    // a claimed route has as many steps as the map has cells, or more
    LongRoute,
    // the program: a question's last bytes, a map too big for it
    NoZeros,
    TooBig,
    // a search's limit is 0
    NoLimit,
    // map text, at the offset of a line or of a byte: the lines of the header; no cell character, no LF after a full row, the text ends, it goes on
    BadType,
    BadHeight(usize),
    BadWidth(usize),
    BadMapLine(usize),
    NoCell(usize),
    NoLineEnd(usize),
    EndsTooSoon(usize),
    FurtherByte(usize),
    // the rooms of the reader and the writer of map text
    ShortCells,
    ShortText,
    // the route log: the file ends inside an entry, an answer that can't be logged, its directions or their filler, the caller's room
    CutShort,
    NoAnswer,
    BadDirections,
    ShortRoom,
}

impl Refusal {
    // 01's number.
    pub fn number(self) -> u32
        ensures { result ≡ number_of self }
    {
        match self {
            Refusal::BadSide => 1,
            Refusal::WrongLength => 2,
            Refusal::NoWeight(_) => 3,
            Refusal::BadWays => 4,
            Refusal::StartOffMap => 5,
            Refusal::GoalOffMap => 6,
            Refusal::StartBlocked => 7,
            Refusal::GoalBlocked => 8,
            Refusal::ShortCosts => 9,
            Refusal::ShortWork => 10,
            Refusal::ShortRoute => 11,
            Refusal::LongRoute => 12,
            Refusal::NoZeros => 13,
            Refusal::TooBig => 14,
            Refusal::NoLimit => 15,
            Refusal::BadType => 21,
            Refusal::BadHeight(_) => 22,
            Refusal::BadWidth(_) => 23,
            Refusal::BadMapLine(_) => 24,
            Refusal::NoCell(_) => 25,
            Refusal::NoLineEnd(_) => 26,
            Refusal::EndsTooSoon(_) => 27,
            Refusal::FurtherByte(_) => 28,
            Refusal::ShortCells => 29,
            Refusal::ShortText => 30,
            Refusal::CutShort => 61,
            Refusal::NoAnswer => 62,
            Refusal::BadDirections => 63,
            Refusal::ShortRoom => 64,
        }
    }

    // 01: "Place is 0 unless said."
    pub fn place(self) -> usize
        ensures { result ≡ place_of self }
    {
        match self {
            Refusal::NoWeight(place)
            | Refusal::BadHeight(place)
            | Refusal::BadWidth(place)
            | Refusal::BadMapLine(place)
            | Refusal::NoCell(place)
            | Refusal::NoLineEnd(place)
            | Refusal::EndsTooSoon(place)
            | Refusal::FurtherByte(place) => place,
            _ => 0,
        }
    }
}

impl fmt::Display for Refusal {
    fn fmt<W: fmt::Write>(&self, f: &mut fmt::Formatter<W>) -> fmt::Result {
        write!(f, "refused {} at {}", self.number(), self.place())
    }
}
