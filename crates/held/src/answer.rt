// What a call answers, in a form that C can share.
ghost use Rattle.std.specs.Prelude.{◌≡◌};
ghost use Rattle.std.specs.Result.{result_map_both};
ghost use Rattle.ledger.specs.Answers.{answer_of};
ghost use Rattle.sheet.specs.Traces.{refusal_number};
ghost use Rattle.timing.specs.Refusals.{refused_time, the_fault};
ghost use Rattle.held.specs.Answers.{accepted, with_value, with_ticks, refused, refused_at, refused_with, told, told_time, told_trace};

use delay::Fault;
use ledger::Reply;
use reader::FileRefusal;
use sheet::TraceRefusal;
use timing::TimeRefusal;

// Number 0 says that the call was accepted, and any other why it was refused. Only where `shown` is set do `value` and
// `ticks` mean something: `value` is a count or the number of a new arc, `ticks` a node's start or end. What a call has
// nothing to say of is 0.
#[repr(C)]
#[derive(Clone, Copy, PartialEq, Eq, Debug)]
pub struct Answer {
    pub number: u32,
    pub shown: bool,
    pub ticks: i32,
    pub value: u64,
    // The line of a refused file; 0 is the whole file.
    pub line: u64,
    // The arc of a fault, with its cause and the level where it was found.
    pub arc: u32,
    pub cause: u32,
    pub level: u32,
}

impl Answer {
    pub const ACCEPTED: Answer = Answer {
        number: 0,
        shown: false,
        ticks: 0,
        value: 0,
        line: 0,
        arc: 0,
        cause: 0,
        level: 0,
    };

    pub(crate) fn with_value(value: u64) -> Answer
        ensures { result ≡ with_value value }
    {
        Answer {
            shown: true,
            value,
            ..Answer::ACCEPTED
        }
    }

    pub(crate) fn with_ticks(ticks: i32) -> Answer
        ensures { result ≡ with_ticks ticks }
    {
        Answer {
            shown: true,
            ticks,
            ..Answer::ACCEPTED
        }
    }

    pub(crate) fn refused(number: u8) -> Answer
        ensures { result ≡ refused number }
    {
        Answer {
            number: u32::from(number),
            ..Answer::ACCEPTED
        }
    }
}

impl From<FileRefusal> for Answer {
    ghost use Rattle.reader.specs.Faults.{number_of};

    ghost from_gives = { λ refusal answer. answer ≡ refused_at (number_of refusal.fault) refusal.line };

    fn from(refusal: FileRefusal) -> Answer {
        Answer {
            number: u32::from(refusal.fault.number()),
            line: refusal.line as u64,
            ..Answer::ACCEPTED
        }
    }
}

impl From<Reply> for Answer {
    ghost from_gives = { λ reply answer. answer ≡ told (answer_of reply) };

    fn from(reply: Reply) -> Answer {
        match reply {
            Reply::Done | Reply::Shown(_) => Answer::ACCEPTED,
            Reply::Taken(number) => Answer::with_value(u64::from(number)),
            Reply::Refused(refusal) => Answer::refused(refusal.number()),
            Reply::FileRefused(refusal) => refusal.into(),
        }
    }
}

impl From<Fault> for Answer {
    ghost from_gives = { λ fault answer. answer ≡ refused_with 12 (the_fault fault) };

    fn from(fault: Fault) -> Answer {
        Answer {
            number: 12,
            arc: u32::from(fault.arc),
            cause: u32::from(fault.cause.number()),
            level: u32::from(fault.level),
            ..Answer::ACCEPTED
        }
    }
}

impl From<TimeRefusal> for Answer {
    ghost from_gives = { λ refusal answer. answer ≡ refused_with (refused_time refusal).number (refused_time refusal).given };

    fn from(refusal: TimeRefusal) -> Answer {
        match refusal {
            TimeRefusal::SourceFault(fault) => fault.into(),
            TimeRefusal::OutOfRange(arc) => Answer {
                arc: u32::from(arc),
                ..Answer::refused(refusal.number())
            },
            TimeRefusal::WrongLength | TimeRefusal::TooFewLines => {
                Answer::refused(refusal.number())
            }
        }
    }
}

impl From<Result<usize, TimeRefusal>> for Answer {
    ghost from_gives = { λ timed answer. answer ≡ told_time (result_map_both (λ n. n) refused_time timed) };

    fn from(timed: Result<usize, TimeRefusal>) -> Answer {
        match timed {
            Ok(lines) => Answer::with_value(lines as u64),
            Err(refusal) => refusal.into(),
        }
    }
}

impl From<Result<Option<usize>, TraceRefusal>> for Answer {
    ghost from_gives = { λ traced answer. answer ≡ told_trace (result_map_both (λ n. n) refusal_number traced) };

    fn from(traced: Result<Option<usize>, TraceRefusal>) -> Answer {
        match traced {
            Ok(Some(arcs)) => Answer::with_value(arcs as u64),
            Ok(None) => Answer::ACCEPTED,
            Err(refusal) => Answer::refused(refusal.number()),
        }
    }
}
