// The entry of a node without its slack, in a form that C can share.

// The line of least slack, 4,096 where there is none; `timed` says whether the node has a slack. C shares the entry, so
// it has marks in place of an `Option`.
#[repr(C)]
#[derive(Clone, Copy, PartialEq, Eq, Debug)]
pub struct NodeEntry {
    pub timed: bool,
    pub line: u16,
}

impl NodeEntry {
    // The entry of a node without a slack.
    pub const BLANK: NodeEntry = NodeEntry {
        timed: false,
        line: 4096,
    };
}
