// Short words for the acts and replies of the lists, and how a list is run.
use graph::{GraphFile, LiveArc, Refusal};
use ledger::{Act, Call, Misuse, Reply, session};
use reader::{FileFault, FileRefusal};
use std::process::Abort;
use std::test::Fail;

pub const DONE: Reply = Reply::Done;

pub const NONE: Reply = Reply::Shown(None);

pub const R6: Reply = Reply::Refused(Refusal::OutOfRange);

pub const R7: Reply = Reply::Refused(Refusal::NotRising);

pub const R9: Reply = Reply::Refused(Refusal::NotLive);

pub const R10: Reply = Reply::Refused(Refusal::InSet);

pub const R11: Reply = Reply::Refused(Refusal::NoPath);

// Two selectors one after the other: eight arcs over the nodes 0 to 6.
pub const SELECTORS: &[u8] = b"from,to\n0,1\n0,2\n1,3\n2,3\n3,4\n3,5\n4,6\n5,6\nend,8\n";

pub fn arc(from: i32, to: i32) -> Act<'static> {
    Act::Make(Call::AddArc { from, to })
}

pub fn cut(arc: i32) -> Act<'static> {
    Act::Make(Call::DropArc { arc })
}

pub fn start(node: i32, ticks: i32) -> Act<'static> {
    Act::Make(Call::SetStart { node, ticks })
}

pub fn end(node: i32, ticks: i32) -> Act<'static> {
    Act::Make(Call::SetEnd { node, ticks })
}

pub fn trim(arc: i32, ticks: i32) -> Act<'static> {
    Act::Make(Call::SetTrim { arc, ticks })
}

pub fn pair(set: i32, from: i32, to: i32) -> Act<'static> {
    Act::Make(Call::Pair { set, from, to })
}

pub fn clear(set: i32) -> Act<'static> {
    Act::Make(Call::Clear { set })
}

pub fn load<'a>(file: GraphFile, bytes: &'a [u8]) -> Act<'a> {
    Act::Make(Call::Load { file, bytes })
}

pub fn arcs<'a>(bytes: &'a [u8]) -> Act<'a> {
    load(GraphFile::Arcs, bytes)
}

pub fn bounds<'a>(bytes: &'a [u8]) -> Act<'a> {
    load(GraphFile::Bounds, bytes)
}

pub fn false_sets<'a>(bytes: &'a [u8]) -> Act<'a> {
    load(GraphFile::FalseSets, bytes)
}

pub fn open(arc: i32, ticks: i32) -> Act<'static> {
    Act::Open { arc, ticks }
}

pub fn close() -> Act<'static> {
    Act::End
}

pub fn read(arc: u16) -> Act<'static> {
    Act::Read { arc }
}

pub fn taken(number: u16) -> Reply {
    Reply::Taken(number)
}

pub fn shown(from: u8, to: u8, trim: i32, sets: u16) -> Reply {
    Reply::Shown(Some(LiveArc {
        from,
        to,
        trim,
        sets,
    }))
}

pub fn at(line: usize, fault: FileFault) -> Reply {
    Reply::FileRefused(FileRefusal { fault, line })
}

pub fn by_call(line: usize, number: u8) -> Reply {
    at(line, FileFault::Call(number))
}

// Runs the acts on a new graph, and compares each reply with the one that is expected.
pub fn run(rt: &impl Abort, acts: &[Act<'_>], expected: &[Reply]) -> Result<(), Fail> {
    let mut replies = [DONE; 32];
    assert!(rt; acts.len() <= 32 && expected.len() == acts.len());
    let _graph = session(acts, &mut replies[0..acts.len()])?;
    for (reply, wanted) in replies.iter().zip(expected) {
        assert_eq!(rt; *reply, *wanted);
    }
    Ok(())
}

// The acts are not run, since a trial and its end do not fit, and no reply is written.
pub fn misnested(rt: &impl Abort, acts: &[Act<'_>]) {
    let mut replies = [NONE; 32];
    assert!(rt; acts.len() <= 32);
    let done = session(acts, &mut replies[0..acts.len()]);
    assert_eq!(rt; done.err(), Some(Misuse::Nesting));
    for reply in replies {
        assert_eq!(rt; reply, NONE);
    }
}
