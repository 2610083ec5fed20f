// An answer as the paper's numbers.
ghost use Rattle.std.specs.Prelude.{◌≡◌};
ghost use Rattle.answering.specs.Answer.{answer_of};
ghost use Rattle.answering.specs.Answers.{without_route, numbers_of};

use crate::{AnswerNumbers, Outcome};
use floor::{MARK, Refusal};

// 02, R-6: P and Q are 0 for every answer but found, as the route's length is.
fn without_route(kind: u64, refusal: u64, place: u64, settled: u64, number: u64) -> AnswerNumbers
    ensures { result ≡ without_route kind refusal place settled number }
{
    AnswerNumbers {
        kind,
        refusal,
        place,
        settled,
        number,
        length: 0,
        p: 0,
        q: 0,
    }
}

pub fn numbers_of(answer: Result<Outcome, Refusal>) -> AnswerNumbers
    ensures { result ≡ numbers_of (answer_of answer) }
{
    match answer {
        Err(refusal) => without_route(0, refusal.number() as u64, refusal.place() as u64, 0, 0),
        Ok(Outcome::Found(settled, cost, route)) => AnswerNumbers {
            kind: 1,
            refusal: 0,
            place: 0,
            settled: settled as u64,
            number: cost as u64,
            length: route.steps as u64,
            p: route.p as u64,
            q: route.q as u64,
        },
        Ok(Outcome::NoRoute(settled)) => without_route(2, 0, 0, settled as u64, MARK as u64),
        Ok(Outcome::Stopped(settled, cost)) => {
            without_route(3, 0, 0, settled as u64, cost as u64)
        }
    }
}
