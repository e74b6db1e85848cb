// Calls, the acts of a history, and their answers, as values.
use graph::{GraphFile, LiveArc, Refusal};
use reader::FileRefusal;

// A call on a timing graph. A load holds the bytes of its file.
#[derive(Clone, Copy)]
pub enum Call<'a> {
    AddArc { from: i32, to: i32 },
    DropArc { arc: i32 },
    SetStart { node: i32, ticks: i32 },
    SetEnd { node: i32, ticks: i32 },
    SetTrim { arc: i32, ticks: i32 },
    Pair { set: i32, from: i32, to: i32 },
    Clear { set: i32 },
    Load { file: GraphFile, bytes: &'a [u8] },
}

// A call with no trial open, a trial's opening and end, or a reading.
#[derive(Clone, Copy)]
pub enum Act<'a> {
    Make(Call<'a>),
    Open { arc: i32, ticks: i32 },
    Read { arc: u16 },
    End,
}

#[derive(Clone, Copy, PartialEq, Debug)]
pub enum Reply {
    Done,
    Taken(u16),
    Refused(Refusal),
    FileRefused(FileRefusal),
    Shown(Option<LiveArc>),
}

// Why a list of acts is not run.
#[derive(Clone, Copy, PartialEq, Debug)]
pub enum Misuse {
    // There is not one reply for each act.
    Lengths,
    // A trial is not ended before the next call or the end of the list, or an end has no opening.
    Nesting,
}
