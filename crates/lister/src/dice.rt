// Numbers that look random and are the same in every run.

#[derive(Clone, Copy)]
pub struct Dice {
    state: u32,
}

impl Dice {
    pub fn new(state: u32) -> Dice {
        Dice { state }
    }

    // A number from 0 up to, and without, `sides`; 0 where there are none.
    pub fn roll(&mut self, sides: u16) -> u16 {
        self.state = self
            .state
            .wrapping_mul(1_664_525)
            .wrapping_add(1_013_904_223);
        if sides == 0 {
            return 0;
        }
        ((self.state >> 16) & 0xffff) as u16 % sides
    }

    // One of `sides` numbers from `least` up.
    pub fn number(&mut self, least: i16, sides: u16) -> i32 {
        i32::from(least) + i32::from(self.roll(sides))
    }

    // Two nodes, the first below the second, of so many.
    pub fn rising(&mut self, nodes: u16) -> (i32, i32) {
        let from = self.roll(nodes.saturating_sub(1));
        let above = nodes.saturating_sub(from).saturating_sub(1);
        let to = from.saturating_add(1).saturating_add(self.roll(above));
        (i32::from(from), i32::from(to))
    }
}
