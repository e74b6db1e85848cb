// What a user can choose by name.
use crate::words::decimal;
use std::fmt;
use std::str::FromStr;
use thiserror::Error;

#[derive(Clone, Copy)]
pub enum MeasureName {
    Ticks,
    Staged,
    Early,
    EarlyStaged,
}

// What a value that is none should have been.
#[derive(Clone, Copy, Debug, Error)]
pub enum WrongValue {
    #[error("takes ticks, staged, early or early-staged")]
    Measure,
    #[error("takes a number of thousandths from 0 to 65535")]
    Margin,
    #[error("takes a node, worst or all")]
    Trace,
}

impl FromStr for MeasureName {
    type Err = WrongValue;

    fn from_str(word: &str) -> Result<MeasureName, WrongValue> {
        match word {
            "ticks" => Ok(MeasureName::Ticks),
            "staged" => Ok(MeasureName::Staged),
            "early" => Ok(MeasureName::Early),
            "early-staged" => Ok(MeasureName::EarlyStaged),
            _ => Err(WrongValue::Measure),
        }
    }
}

impl fmt::Display for MeasureName {
    fn fmt<W: fmt::Write>(&self, f: &mut fmt::Formatter<W>) -> fmt::Result {
        f.write_str(match self {
            MeasureName::Ticks => "ticks",
            MeasureName::Staged => "ticks then stages",
            MeasureName::Early => "early over ticks",
            MeasureName::EarlyStaged => "early over ticks then stages",
        })
    }
}

// Calls a function that is generic over the measure at the measure of a name.
macro_rules! by_measure {
    ($name:expr, $function:ident($($argument:expr),*)) => {
        match $name {
            MeasureName::Ticks => $function::<Ticks>($($argument),*),
            MeasureName::Staged => $function::<StagedTicks>($($argument),*),
            MeasureName::Early => $function::<Early<Ticks>>($($argument),*),
            MeasureName::EarlyStaged => $function::<Early<StagedTicks>>($($argument),*),
        }
    };
}

pub(crate) use by_measure;

// Which paths are shown.
#[derive(Clone, Copy)]
pub enum Shown {
    Worst,
    All,
    Node(i32),
}

impl FromStr for Shown {
    type Err = WrongValue;

    fn from_str(word: &str) -> Result<Shown, WrongValue> {
        match word {
            "worst" => Ok(Shown::Worst),
            "all" => Ok(Shown::All),
            _ => {
                let node = decimal(word.as_bytes()).ok_or(WrongValue::Trace)?;
                Ok(Shown::Node(node))
            }
        }
    }
}
