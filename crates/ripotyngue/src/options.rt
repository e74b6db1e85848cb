// The options of the command `time`.
use crate::choices::{MeasureName, Shown, WrongValue};
use crate::failure::Failure;
use crate::words::decimal;
use std::env::Args;
use std::fmt;
use std::str::FromStr;

#[derive(Default, Drop)]
pub struct Options {
    pub arcs: Option<String>,
    pub delays: Option<String>,
    pub bounds: Option<String>,
    pub false_sets: Option<String>,
    pub measure: Option<MeasureName>,
    pub permille: Option<u16>,
    pub shown: Option<Shown>,
}

// An option's name.
#[derive(Clone, Copy, Debug)]
pub enum Name {
    Arcs,
    Delays,
    Bounds,
    False,
    Measure,
    Margin,
    Trace,
}

// A word that is the name of no option.
#[derive(Clone, Copy)]
pub struct NoName;

impl FromStr for Name {
    type Err = NoName;

    fn from_str(word: &str) -> Result<Name, NoName> {
        match word {
            "--arcs" => Ok(Name::Arcs),
            "--delays" => Ok(Name::Delays),
            "--bounds" => Ok(Name::Bounds),
            "--false" => Ok(Name::False),
            "--measure" => Ok(Name::Measure),
            "--margin" => Ok(Name::Margin),
            "--trace" => Ok(Name::Trace),
            _ => Err(NoName),
        }
    }
}

impl fmt::Display for Name {
    fn fmt<W: fmt::Write>(&self, f: &mut fmt::Formatter<W>) -> fmt::Result {
        f.write_str(match self {
            Name::Arcs => "--arcs",
            Name::Delays => "--delays",
            Name::Bounds => "--bounds",
            Name::False => "--false",
            Name::Measure => "--measure",
            Name::Margin => "--margin",
            Name::Trace => "--trace",
        })
    }
}

fn permille(word: &str) -> Result<u16, WrongValue> {
    let number = decimal(word.as_bytes()).ok_or(WrongValue::Margin)?;
    u16::try_from(number).map_err(|_| WrongValue::Margin)
}

// Puts an option's value where there is none yet.
fn put<T: Drop>(
    place: &mut Option<T>,
    name: Name,
    value: Result<T, WrongValue>,
) -> Result<(), Failure> {
    if place.is_some() {
        return Err(Failure::Twice(name));
    }
    match value {
        Ok(value) => {
            *place = Some(value);
            Ok(())
        }
        Err(wrong) => Err(Failure::Wrong(name, wrong)),
    }
}

impl Options {
    fn take(&mut self, name: Name, value: String) -> Result<(), Failure> {
        match name {
            Name::Arcs => put(&mut self.arcs, name, Ok(value)),
            Name::Delays => put(&mut self.delays, name, Ok(value)),
            Name::Bounds => put(&mut self.bounds, name, Ok(value)),
            Name::False => put(&mut self.false_sets, name, Ok(value)),
            Name::Measure => put(&mut self.measure, name, value.as_str().parse()),
            Name::Margin => put(&mut self.permille, name, permille(value.as_str())),
            Name::Trace => put(&mut self.shown, name, value.as_str().parse()),
        }
    }
}

pub fn read_options(mut words: Args) -> Result<Options, Failure> {
    let mut options = Options::default();
    while let Some(word) = words.next() {
        let Ok(name) = word.as_str().parse::<Name>() else {
            return Err(Failure::UnknownOption(word));
        };
        let value = words
            .next()
            .filter(|value| !value.as_str().starts_with("--"))
            .ok_or(Failure::NoValue(name))?;
        options.take(name, value)?;
    }
    Ok(options)
}
