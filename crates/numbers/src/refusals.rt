// Document 01, "Refusals in their order": their numbers. 7 stood for over 4,294,967,295 drones, and is not used again.
ghost use Rattle.std.specs.Prelude.{◌≡◌};
ghost use Rattle.numbers.specs.Refused.{number};

#[derive(Clone, Copy, PartialEq, Eq)]
pub enum Refusal {
    BadLength = 1,
    BadKeys = 2,
    BadEntry = 3,
    BadSize = 4,
    BadIds = 5,
    BadField = 6,
    NoResult = 8,
    TooManySkills = 9,
    TooShort = 10,
    BadProfile = 11,
    BadPrices = 12,
    OverLimit = 13,
    NoEntry = 14,
    BadVolume = 15,
    TooManyListed = 16,
    NoReader = 19,
    NotForGuests = 20,
}

impl Refusal {
    pub fn number(self) -> u64
        ensures { result ≡ number self }
    {
        self as u64
    }
}
