// Why a trace is refused.
ghost use Rattle.std.specs.Prelude.{◌≡◌, Some};
ghost use Rattle.sheet.specs.Traces.{refusal_number, refusal_cause, refusal_words};

use std::fmt;

#[derive(Clone, Copy, PartialEq, Eq, Debug)]
pub enum TraceRefusal {
    // The tables have not the lengths that they must have.
    WrongLength,
    // There is no such node.
    OutOfRange,
    // A link that is followed leads nowhere, or the wrong way.
    BrokenLink,
    // The list has fewer places than the path has arcs.
    ShortList,
}

impl TraceRefusal {
    pub fn number(self) -> u8
        ensures { result ≡ refusal_number self }
    {
        match self {
            TraceRefusal::WrongLength => 14,
            TraceRefusal::OutOfRange => 6,
            TraceRefusal::BrokenLink => 16,
            TraceRefusal::ShortList => 17,
        }
    }

    fn words(self) -> &'static str
        ensures { result.now ≡ refusal_cause self }
    {
        match self {
            TraceRefusal::WrongLength => "a table has the wrong length",
            TraceRefusal::OutOfRange => "there is no such node",
            TraceRefusal::BrokenLink => "a link of the sheet cannot be followed",
            TraceRefusal::ShortList => "the list for the arcs is too short",
        }
    }
}

impl fmt::Display for TraceRefusal {
    ghost output = { λ refusal. Some (refusal_words refusal) };

    fn fmt<W: fmt::Write>(&self, f: &mut fmt::Formatter<W>) -> fmt::Result {
        let number = self.number();
        let words = self.words();
        write!(f, "number {number}: {words}")
    }
}
