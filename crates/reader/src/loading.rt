// Hands a file's records to whoever takes them.
ghost use Rattle.std.specs.Prelude.{◌≡◌, ℕ, ◌+◌, Result};
ghost use Rattle.reader.specs.declared.records.Record.{Record};
ghost use Rattle.reader.specs.Format.{scanned};
ghost use Rattle.reader.specs.Reading.{left};
ghost use Rattle.reader.specs.Loading.{Leaves, Answers, numbered, replay, loaded, reached};

use crate::faults::{FileFault, FileRefusal};
use crate::reading::Reader;
use crate::records::{Kind, Record};

// What takes a file's records, one by one, and may turn one down.
pub trait Sink {
    // What it holds, in the words of its own subject.
    ghost model: { Type 0 };

    ghost holds: { Self → model };

    // What a record makes of that, or the number of the refusal.
    ghost step: { model → Record → Result model ℕ };

    // Why it turns a record down.
    type Refusal: Drop;

    ghost number: { Self.Refusal → ℕ };

    // A record that is turned down changes nothing.
    fn take(&mut self, entry: Record) -> Result<(), Self::Refusal>
        ensures { Leaves (step (holds self.old) entry) (holds self.old) (numbered number result) (holds self.new) };

    // The refusal's number.
    fn number(refusal: &Self::Refusal) -> u8
        ensures { result ≡ number refusal.now };
}

// Hands the records that are left to the sink, up to the first refusal.
fn drain<S: Sink>(reader: &mut Reader, sink: &mut S) -> Result<(), FileRefusal>
    ensures { Answers (replay S.step (left reader.old).records (left reader.old).ending (reader.old.cursor.line + 1) (S.holds sink.old)) (reached S.step (left reader.old).records (S.holds sink.old)) result (S.holds sink.new) }
{
    while let Some(record) = reader.next()? {
        if let Err(refusal) = sink.take(record) {
            return Err(FileRefusal {
                fault: FileFault::Call(S::number(&refusal)),
                line: reader.line(),
            });
        }
    }
    Ok(())
}

// Hands a file's records to the sink, up to the first refusal. A refused file leaves what the records before that made.
pub fn run<S: Sink>(kind: Kind, bytes: &[u8], sink: &mut S) -> Result<(), FileRefusal>
    ensures { Answers (loaded S.step (scanned kind bytes.now) (S.holds sink.old)) (reached S.step (scanned kind bytes.now).records (S.holds sink.old)) result (S.holds sink.new) }
{
    let mut reader = Reader::open(kind, bytes)?;
    drain(&mut reader, sink)
}

// Loads a whole file, or leaves the sink as it was.
pub fn load<S: Sink + Copy>(kind: Kind, bytes: &[u8], sink: &mut S) -> Result<(), FileRefusal>
    ensures { Leaves (loaded S.step (scanned kind bytes.now) (S.holds sink.old)) (S.holds sink.old) result (S.holds sink.new) }
{
    let mut copy = *sink;
    run(kind, bytes, &mut copy)?;
    *sink = copy;
    Ok(())
}
