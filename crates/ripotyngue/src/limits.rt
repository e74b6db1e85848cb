// How long a sheet and a path can be.

pub const MOST_LINES: usize = 4096;

pub const LONGEST_PATH: usize = 255;
