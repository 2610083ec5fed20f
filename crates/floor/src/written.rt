// A writer's answer for callers from C.
ghost use Rattle.std.specs.Prelude.{◌≡◌};
ghost use Rattle.floor.specs.Numbers.{written_as, written_numbers};

use crate::Refusal;

// The length of what was written, or the refusal's number and place; those that a case does not have are 0.
#[repr(C)]
#[derive(Clone, Copy)]
pub struct WrittenNumbers {
    pub refusal: u64,
    pub place: u64,
    pub length: u64,
}

pub fn written_numbers(written: Result<usize, Refusal>) -> WrittenNumbers
    ensures { result ≡ written_numbers (written_as written) }
{
    match written {
        Ok(length) => WrittenNumbers {
            refusal: 0,
            place: 0,
            length: length as u64,
        },
        Err(refusal) => WrittenNumbers {
            refusal: refusal.number() as u64,
            place: refusal.place() as u64,
            length: 0,
        },
    }
}
