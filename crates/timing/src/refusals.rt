// Why a timing is refused.
ghost use Rattle.std.specs.Prelude.{◌≡◌, Some};
ghost use Rattle.timing.specs.Refusals.{refused_time, time_cause, time_words};
ghost use Rattle.timing.specs.declared.refusals.TimeRefusal.TheVariants.{SourceFault};

use delay::Fault;
use std::fmt;

#[derive(Clone, Copy, PartialEq, Eq, Debug)]
pub enum TimeRefusal {
    // The tables have not the lengths that they must have.
    WrongLength,
    // The source's fault at the lowest live arc without ticks.
    SourceFault(Fault),
    // The ticks plus trim of the lowest such arc are out of range.
    OutOfRange(u16),
    // There are fewer lines than arrivals.
    TooFewLines,
}

impl TimeRefusal {
    pub fn number(self) -> u8
        ensures { result ≡ (refused_time self).number }
    {
        match self {
            TimeRefusal::WrongLength => 14,
            TimeRefusal::SourceFault(_) => 12,
            TimeRefusal::OutOfRange(_) => 13,
            TimeRefusal::TooFewLines => 15,
        }
    }
}

impl From<Fault> for TimeRefusal {
    ghost from_gives = { λ f r. r ≡ SourceFault f };

    fn from(fault: Fault) -> TimeRefusal {
        TimeRefusal::SourceFault(fault)
    }
}

// What is said of a refusal behind its number.
#[derive(Clone, Copy)]
struct Words(TimeRefusal);

impl fmt::Display for Words {
    ghost output = { λ words. Some (time_cause words.0) };

    fn fmt<W: fmt::Write>(&self, f: &mut fmt::Formatter<W>) -> fmt::Result {
        match self.0 {
            TimeRefusal::WrongLength => f.write_str("a table has the wrong length"),
            TimeRefusal::SourceFault(fault) => write!(f, "{fault}"),
            TimeRefusal::OutOfRange(arc) => {
                write!(f, "the delay and trim of arc {arc} are out of range")
            }
            TimeRefusal::TooFewLines => f.write_str("the tables have too few lines"),
        }
    }
}

impl fmt::Display for TimeRefusal {
    ghost output = { λ refusal. Some (time_words refusal) };

    fn fmt<W: fmt::Write>(&self, f: &mut fmt::Formatter<W>) -> fmt::Result {
        let number = self.number();
        let words = Words(*self);
        write!(f, "number {number}: {words}")
    }
}
