// What a file says: its kind, and the records of its value lines.
ghost use Rattle.std.specs.Prelude.{◌≡◌, Some, codes, IfErr};
ghost use Rattle.std.specs.Result.{result_ok};
ghost use Rattle.reader.specs.Records.{name_of, named, side_of};
ghost use Rattle.reader.specs.Words.{side_words};

use std::error::Error;
use std::fmt;
use std::str::FromStr;

// The four kinds of file.
#[derive(Clone, Copy, Debug, PartialEq, Eq)]
pub enum Kind {
    Arcs,
    Delays,
    Bounds,
    FalseSets,
}

impl Kind {
    // The kind's name on a command line.
    pub fn name(self) -> &'static str
        ensures { result.now ≡ name_of self }
    {
        match self {
            Kind::Arcs => "arcs",
            Kind::Delays => "delays",
            Kind::Bounds => "bounds",
            Kind::FalseSets => "false",
        }
    }
}

// A text that names no kind of file.
#[derive(Clone, Copy, Debug, PartialEq, Eq)]
pub struct UnknownKind;

impl fmt::Display for UnknownKind {
    ghost output = { λ _. Some (codes "no kind of file has this name") };

    fn fmt<W: fmt::Write>(&self, f: &mut fmt::Formatter<W>) -> fmt::Result {
        write!(f, "no kind of file has this name")
    }
}

impl Error for UnknownKind {}

// The kind of a name on a command line.
impl FromStr for Kind {
    type Err = UnknownKind;

    ghost from_str_gives = { λ name r. result_ok r ≡ named name };

    fn from_str(name: &str) -> Result<Kind, UnknownKind> {
        match name {
            "arcs" => Ok(Kind::Arcs),
            "delays" => Ok(Kind::Delays),
            "bounds" => Ok(Kind::Bounds),
            "false" => Ok(Kind::FalseSets),
            _ => Err(UnknownKind),
        }
    }
}

// Which end of a path a bound is for.
#[derive(Clone, Copy, Debug, PartialEq, Eq)]
pub enum Side {
    Start,
    End,
}

// A letter that names no end of a path.
#[derive(Clone, Copy, Debug, PartialEq, Eq)]
pub struct UnknownSide(pub char);

impl fmt::Display for UnknownSide {
    ghost output = { λ unknown. Some (side_words unknown.0) };

    fn fmt<W: fmt::Write>(&self, f: &mut fmt::Formatter<W>) -> fmt::Result {
        let letter = self.0;
        write!(f, "no end of a path has the letter {letter}")
    }
}

impl Error for UnknownSide {}

// The end that a letter in a file stands for.
impl TryFrom<char> for Side {
    type Error = UnknownSide;

    // The refusal carries the letter.
    ghost try_from_gives = { λ letter r. (result_ok r ≡ side_of letter) × IfErr r (λ e. e.0 ≡ letter) };

    fn try_from(letter: char) -> Result<Side, UnknownSide> {
        match letter {
            's' => Ok(Side::Start),
            'e' => Ok(Side::End),
            _ => Err(UnknownSide(letter)),
        }
    }
}

// What one value line says. The numbers are as written: whoever takes the record checks their range.
#[derive(Clone, Copy, Debug, PartialEq, Eq)]
pub enum Record {
    Arc { from: i32, to: i32 },
    Delay { arc: i32, ticks: i32 },
    Bound { node: i32, side: Side, ticks: i32 },
    Pair { set: i32, from: i32, to: i32 },
}
