// The refusals, in the order of their numbers. A call gives the first that applies in the order of its own checks; an answer has the number 0.
// docs/SCOPE.md says exactly when each is given. Promised: the numbers of specs/Number.antt, no two of which are equal.
ghost use Rattle.std.specs.Prelude.{◌≡◌};
ghost use Rattle.refusal.specs.Number.{number_of, is_listed, ReadsNumber};

#[derive(Clone, Copy, Debug, PartialEq, Eq)]
pub enum Refusal {
    // the buffer's length is odd, 0, or too large
    Length,
    // an argument is not finite
    NotFinite,
    // the order is not from 0 to 1,000
    Order,
    // K of 0
    Zero,
    // I, and the argument is too large for the power series
    Series,
    // K: the search for Miller's start found none
    Start,
    // K: the climb out of underflow found no two values on scale
    Climb,
    // a finished value is not finite
    Overflow,
    // a malformed line
    Malformed,
    // log-gamma of 0 or less
    NotPositive,
    // the real part is below 0
    Sign,
    // a part is above 32,768 in magnitude
    Size,
    // a sweep of no steps, or of more than 4,096
    Steps,
    // a page of more than 4,294,967,295 lines
    Full,
}

// A number that no refusal has.
#[derive(Clone, Copy, Debug, PartialEq, Eq)]
pub struct Unlisted(pub u32);

impl Refusal {
    pub fn number(self) -> u32
        ensures { result ≡ number_of self }
    {
        u32::from(self)
    }
}

impl From<Refusal> for u32 {
    ghost from_gives = { λ refusal number. number ≡ number_of refusal };

    fn from(refusal: Refusal) -> u32 {
        match refusal {
            Refusal::Length => 1,
            Refusal::NotFinite => 2,
            Refusal::Order => 3,
            Refusal::Zero => 4,
            Refusal::Series => 5,
            Refusal::Start => 6,
            Refusal::Climb => 7,
            Refusal::Overflow => 8,
            Refusal::Malformed => 9,
            Refusal::NotPositive => 10,
            Refusal::Sign => 11,
            Refusal::Size => 12,
            Refusal::Steps => 13,
            Refusal::Full => 15,
        }
    }
}

impl TryFrom<u32> for Refusal {
    type Error = Unlisted;

    ghost try_from_gives = { ReadsNumber };

    fn try_from(number: u32) -> Result<Refusal, Unlisted> {
        match number {
            1 => Ok(Refusal::Length),
            2 => Ok(Refusal::NotFinite),
            3 => Ok(Refusal::Order),
            4 => Ok(Refusal::Zero),
            5 => Ok(Refusal::Series),
            6 => Ok(Refusal::Start),
            7 => Ok(Refusal::Climb),
            8 => Ok(Refusal::Overflow),
            9 => Ok(Refusal::Malformed),
            10 => Ok(Refusal::NotPositive),
            11 => Ok(Refusal::Sign),
            12 => Ok(Refusal::Size),
            13 => Ok(Refusal::Steps),
            15 => Ok(Refusal::Full),
            _ => Err(Unlisted(number)),
        }
    }
}

// Whether a refusal has this number: whoever reads an answer line asks.
pub fn is_listed(number: u32) -> bool
    ensures { result ≡ is_listed number }
{
    Refusal::try_from(number).is_ok()
}
