// Where the links of a line lead.

// Which links are followed: back to a start, or fore to an end.
#[derive(Clone, Copy)]
pub(crate) enum Way {
    Back,
    Fore,
}

// A link, by its arc and the line behind it.
#[derive(Clone, Copy)]
pub(crate) struct Link {
    pub arc: u16,
    pub line: u16,
}
