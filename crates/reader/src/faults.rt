// Why a file is refused, and in which line.
ghost use Rattle.std.specs.Prelude.{◌≡◌, Some};
ghost use Rattle.reader.specs.Faults.{number_of};
ghost use Rattle.reader.specs.Words.{fault_words, refusal_words};

use std::error::Error;
use std::fmt;

// What is wrong with a file. A call that turns a record down has a number of its own, and is kept by that number: each
// sink has a type of its own for what it says, and a file's refusal can hold any.
#[derive(Clone, Copy, Debug, PartialEq, Eq)]
pub enum FileFault {
    NoBytes,
    TooLong,
    NamesUnended,
    NamesWrong,
    ValueUnended,
    ValueWrong,
    EndMissing,
    EndUnended,
    EndWrong,
    EndFollowed,
    Call(u8),
}

impl FileFault {
    // The refusal's number.
    pub fn number(&self) -> u8
        ensures { result ≡ number_of self.now }
    {
        match *self {
            FileFault::NoBytes => 1,
            FileFault::TooLong => 2,
            FileFault::NamesUnended | FileFault::NamesWrong => 3,
            FileFault::ValueUnended | FileFault::ValueWrong => 4,
            FileFault::EndMissing
            | FileFault::EndUnended
            | FileFault::EndWrong
            | FileFault::EndFollowed => 5,
            FileFault::Call(number) => number,
        }
    }
}

// Whoever takes the records may use any number of the table of refusals.
impl fmt::Display for FileFault {
    ghost output = { λ fault. Some (fault_words fault) };

    fn fmt<W: fmt::Write>(&self, f: &mut fmt::Formatter<W>) -> fmt::Result {
        f.write_str(match *self {
            FileFault::NoBytes => "the file has no bytes",
            FileFault::TooLong => "the file has more than 60000 bytes",
            FileFault::NamesUnended => "the names line has no line feed at its end",
            FileFault::NamesWrong => "the names are not those of the kind, each once",
            FileFault::ValueUnended => "the value line has no line feed at its end",
            FileFault::ValueWrong => "the value line has wrong fields or a field of the wrong form",
            FileFault::EndMissing => "the end line is missing",
            FileFault::EndUnended => "the end line has no line feed at its end",
            FileFault::EndWrong => "the end line does not count the value lines",
            FileFault::EndFollowed => "bytes follow the end line",
            FileFault::Call(6) => "a number is out of range",
            FileFault::Call(7) => "the arc's from is not below its to",
            FileFault::Call(8) => "all 1024 arc numbers are taken",
            FileFault::Call(9) => "the arc is not live",
            FileFault::Call(10) => "the arc is in a false set",
            FileFault::Call(11) =>
                "no path of one or more live arcs leads from the first node to the second",
            FileFault::Call(14) => "a table has the wrong length",
            FileFault::Call(_) => "the record was turned down",
        })
    }
}

impl Error for FileFault {}

// A fault, and the line that has it; line 0 stands for the whole file.
#[derive(Clone, Copy, Debug, PartialEq, Eq)]
pub struct FileRefusal {
    pub fault: FileFault,
    pub line: usize,
}

impl fmt::Display for FileRefusal {
    ghost output = { λ refusal. Some (refusal_words refusal) };

    fn fmt<W: fmt::Write>(&self, f: &mut fmt::Formatter<W>) -> fmt::Result {
        let number = self.fault.number();
        let FileRefusal { fault, line } = *self;
        write!(f, "number {number} at line {line}: {fault}")
    }
}

impl Error for FileRefusal {}
