// Numbers and zeros read from a record, and records read from a file of them.
ghost use Rattle.std.specs.Prelude.{◌≡◌, ◌+◌, ◌≤◌, ◌<◌, length, take, drop};
ghost use Rattle.recordlayout.specs.Record.{record_size, number_at, all_zero, answer_in};

use crate::RECORD_SIZE;
use answering::AnswerNumbers;

pub fn number_at(bytes: &[u8], at: usize) -> u32
    requires { at + 4 ≤ length bytes.now }
    ensures { result ≡ number_at bytes.now at }
{
    u32::from_le_bytes([bytes[at], bytes[at + 1], bytes[at + 2], bytes[at + 3]])
}

pub fn all_zero(bytes: &[u8]) -> bool
    ensures { result ≡ all_zero bytes.now }
{
    bytes.iter().all(|byte| *byte == 0)
}

// The record at an offset of a file.
pub fn record_at(bytes: &[u8], at: usize) -> [u8; RECORD_SIZE]
    requires { at + record_size ≤ length bytes.now }
    ensures { result ≡ take record_size (drop at bytes.now) }
{
    let end = at + RECORD_SIZE;
    let mut record = [0u8; RECORD_SIZE];
    record.copy_from_slice(&bytes[at..end]);
    record
}

// The numbers of an answer record. A place stands in no record.
#[tactic(auto, unfolding(crate::specs::Record::answer_in))]
pub fn numbers_in(answer: &[u8]) -> AnswerNumbers
    requires { record_size ≤ length answer.now }
    ensures { result ≡ answer_in answer.now }
{
    AnswerNumbers {
        kind: answer[0] as u64,
        refusal: answer[1] as u64,
        place: 0,
        settled: number_at(answer, 4) as u64,
        number: number_at(answer, 8) as u64,
        length: number_at(answer, 12) as u64,
        p: number_at(answer, 16) as u64,
        q: number_at(answer, 20) as u64,
    }
}
