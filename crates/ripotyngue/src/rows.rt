// Rows as text.
use measure::Measure;
use std::fmt;

// The places of a row, with some text between them.
#[derive(Clone, Copy)]
pub struct Joined<M> {
    pub row: M,
    pub by: &'static str,
}

impl<M: Measure> fmt::Display for Joined<M> {
    fn fmt<W: fmt::Write>(&self, f: &mut fmt::Formatter<W>) -> fmt::Result {
        let mut before = "";
        for place in 0..M::places() {
            if let Some(number) = self.row.place(place) {
                write!(f, "{before}{number}")?;
                before = self.by;
            }
        }
        Ok(())
    }
}

// The places of a row below the head of a table.
#[derive(Clone, Copy)]
pub struct Columns<M>(pub M);

impl<M: Measure> fmt::Display for Columns<M> {
    fn fmt<W: fmt::Write>(&self, f: &mut fmt::Formatter<W>) -> fmt::Result {
        let mut width = 9usize;
        for place in 0..M::places() {
            if let Some(number) = self.0.place(place) {
                write!(f, "{number:>width$}")?;
                width = 8;
            }
        }
        Ok(())
    }
}

// A row as a report shows it.
pub fn commas<M: Measure>(row: M) -> Joined<M> {
    Joined { row, by: ", " }
}

// A row as the shell answers it.
pub fn list<M: Measure>(row: M) -> Joined<M> {
    Joined { row, by: "," }
}

// A row as the shell answers it, where there is one.
#[derive(Clone, Copy)]
pub struct ListOrNone<M>(pub Option<M>);

impl<M: Measure> fmt::Display for ListOrNone<M> {
    fn fmt<W: fmt::Write>(&self, f: &mut fmt::Formatter<W>) -> fmt::Result {
        match self.0 {
            Some(row) => write!(f, "{}", list(row)),
            None => f.write_str("none"),
        }
    }
}
