// Document 02, P14: who reads what a call gives.
ghost use Rattle.numbers.specs.Reading.{ReaderOf};

use crate::refusals::Refusal;

#[derive(Clone, Copy, PartialEq, Eq)]
pub enum Reader {
    Guest = 0,
    Pilot = 1,
    Officer = 2,
}

// A number that is nobody's is refused.
impl TryFrom<u32> for Reader {
    type Error = Refusal;

    ghost try_from_gives = { ReaderOf };

    fn try_from(number: u32) -> Result<Reader, Refusal> {
        match number {
            0 => Ok(Reader::Guest),
            1 => Ok(Reader::Pilot),
            2 => Ok(Reader::Officer),
            _ => Err(Refusal::NoReader),
        }
    }
}
