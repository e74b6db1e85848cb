// A line of the timing sheet without its times, in a form that C can share.

// A node and a tag that an arrival reaches, and the links to the lines before and after it.
// Node 256, arc 1,024 and line 4,096 mean that there is none, and `required` says whether the line has a required time:
// C shares the line, and an `Option` has no layout that C could be told.
#[repr(C)]
#[derive(Clone, Copy, PartialEq, Eq, Debug)]
pub struct Line {
    pub node: u16,
    pub tag: u16,
    pub back_arc: u16,
    pub back_line: u16,
    pub fore_arc: u16,
    pub fore_line: u16,
    pub required: bool,
}

impl Line {
    // A line that says nothing.
    pub const BLANK: Line = Line {
        node: 256,
        tag: 0,
        back_arc: 1024,
        back_line: 4096,
        fore_arc: 1024,
        fore_line: 4096,
        required: false,
    };
}
