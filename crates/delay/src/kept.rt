// A tick count that a memo keeps, with its arc.
#[derive(Clone, Copy)]
pub(crate) struct Kept {
    pub arc: u16,
    pub ticks: i32,
}
