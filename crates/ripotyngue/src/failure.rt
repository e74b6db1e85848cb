// Why a command could not do its work.
use crate::choices::WrongValue;
use crate::options::Name;
use reader::FileRefusal;
use sheet::TraceRefusal;
use std::alloc::AllocError;
use std::io;
use thiserror::Error;
use timing::TimeRefusal;

#[derive(Debug, Drop, Error)]
pub enum Failure {
    #[error("no command; try: ripotyngue help")]
    NoCommand,
    #[error("unknown command '{0}'; try: ripotyngue help")]
    UnknownCommand(String),
    #[error("check needs a kind: arcs, delays, bounds or false")]
    NoKind,
    #[error("unknown kind '{0}': the kinds are arcs, delays, bounds and false")]
    UnknownKind(String),
    #[error("check needs a file")]
    NoFile,
    #[error("time: unknown option '{0}'; try: ripotyngue help")]
    UnknownOption(String),
    #[error("time: {0} has no value")]
    NoValue(Name),
    #[error("time: {0} is given twice")]
    Twice(Name),
    #[error("time: {0} {1}")]
    Wrong(Name, WrongValue),
    #[error("time: {0} is missing; try: ripotyngue help")]
    Missing(Name),
    #[error("{path}: cannot be read: {error}")]
    Unread { path: String, error: io::Error },
    #[error("{path}: refused, {refusal}")]
    FileRefused { path: String, refusal: FileRefusal },
    #[error("refused, {0}")]
    TimeRefused(TimeRefusal),
    #[error("refused, number 15: the sheet has more than 4096 lines")]
    TooManyLines,
    #[error("path of node {node}: refused, {refusal}")]
    TraceRefused { node: i32, refusal: TraceRefusal },
    #[error("the steps do not fit together")]
    Misfit,
    #[error(transparent)]
    Io(#[from] io::Error),
}

// The program's tables have as many lines as a sheet may have.
impl From<TimeRefusal> for Failure {
    fn from(refusal: TimeRefusal) -> Failure {
        match refusal {
            TimeRefusal::TooFewLines => Failure::TooManyLines,
            other => Failure::TimeRefused(other),
        }
    }
}

impl From<AllocError> for Failure {
    fn from(error: AllocError) -> Failure {
        Failure::Io(io::Error::from(error))
    }
}
