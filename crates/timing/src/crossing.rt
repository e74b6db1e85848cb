// An arc as it is crossed.
ghost use Rattle.std.specs.Prelude.{◌≡◌};
ghost use Rattle.timing.specs.Passed.{passed_tag};

// An arc by its number: the node that it leads to, the sets that begin where it starts, those that hold it, those that end where it leads to, and its delay.
#[derive(Clone, Copy)]
pub(crate) struct Crossing<M> {
    pub arc: u16,
    pub to: u16,
    pub begins: u16,
    pub sets: u16,
    pub ends: u16,
    pub row: M,
}

impl<M> Crossing<M> {
    // The tag that an arrival has after the arc; nothing where a set ends that it is in.
    pub(crate) fn pass(&self, tag: u16) -> Option<u16>
        ensures { result ≡ passed_tag tag self.now.begins self.now.sets self.now.ends }
    {
        let passed = (tag | self.begins) & self.sets;
        (passed & self.ends == 0).then_some(passed)
    }
}
