// An answer as its record.
ghost use Rattle.std.specs.Prelude.{◌≡◌};
ghost use Rattle.answering.specs.Answer.{answer_of};
ghost use Rattle.recordlayout.specs.Record.{little, record_for, record_of};
ghost use Rattle.recordlayout.specs.Fields.{SmallCodes};

use crate::RECORD_SIZE;
use answering::numbers::numbers_of;
use answering::{AnswerNumbers, Outcome};
use floor::Refusal;

// A number's four bytes, the lowest first.
fn little(n: u64) -> [u8; 4]
    ensures { result ≡ little n }
{
    let bytes = n.to_le_bytes();
    [bytes[0], bytes[1], bytes[2], bytes[3]]
}

// 01: kind, refusal number, two zeros, settled, number returned, route length, numbers little-endian; 02, R-6: then P, Q and eight zeros.
fn record_for(n: AnswerNumbers) -> [u8; RECORD_SIZE]
    requires { SmallCodes n }
    ensures { result ≡ record_for n }
{
    let mut record = [0u8; RECORD_SIZE];
    record[0] = n.kind as u8;
    record[1] = n.refusal as u8;
    record[4..8].copy_from_slice(&little(n.settled));
    record[8..12].copy_from_slice(&little(n.number));
    record[12..16].copy_from_slice(&little(n.length));
    record[16..20].copy_from_slice(&little(n.p));
    record[20..24].copy_from_slice(&little(n.q));
    record
}

#[tactic(auto, using(crate::proofs::Codes::small_codes), unfolding(crate::specs::Record::record_of))]
pub fn record_of(answer: Result<Outcome, Refusal>) -> [u8; RECORD_SIZE]
    ensures { result ≡ record_of (answer_of answer) }
{
    record_for(numbers_of(answer))
}
