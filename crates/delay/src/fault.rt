// Why a source has no tick count for an arc.
ghost use Rattle.std.specs.Prelude.{◌≡◌, Some};
ghost use Rattle.delay.specs.Causes.{cause_number, cause_words, fault_words};

use std::fmt;

#[derive(Clone, Copy, PartialEq, Eq, Debug)]
pub enum Cause {
    // No row, or a row with no mark.
    Missing,
    // The ticks of a row are no tick count.
    OutOfRange,
    // The ticks under a margin are no tick count.
    MarginOutOfRange,
}

impl Cause {
    pub fn number(self) -> u8
        ensures { result ≡ cause_number self }
    {
        match self {
            Cause::Missing => 1,
            Cause::OutOfRange => 2,
            Cause::MarginOutOfRange => 3,
        }
    }
}

impl fmt::Display for Cause {
    ghost output = { λ cause. Some (cause_words cause) };

    fn fmt<W: fmt::Write>(&self, f: &mut fmt::Formatter<W>) -> fmt::Result {
        let words = match *self {
            Cause::Missing => "no row or no mark",
            Cause::OutOfRange => "a row's ticks out of range",
            Cause::MarginOutOfRange => "ticks out of range after a margin",
        };
        f.write_str(words)
    }
}

// The level is that of the source or layer that found the fault.
#[derive(Clone, Copy, PartialEq, Eq, Debug)]
pub struct Fault {
    pub cause: Cause,
    pub arc: u16,
    pub level: u8,
}

impl fmt::Display for Fault {
    ghost output = { λ fault. Some (fault_words fault) };

    fn fmt<W: fmt::Write>(&self, f: &mut fmt::Formatter<W>) -> fmt::Result {
        let Fault { cause, arc, level } = *self;
        let number = cause.number();
        write!(
            f,
            "no delay for arc {arc}: {cause} (cause {number}, level {level})"
        )
    }
}
