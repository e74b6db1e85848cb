// The theorem about written sheets. `blocks` is of all sound blocks, `graphs` of the blocks that timing graphs make.
ghost use Rattle.paths.specs.Theorems.{OfBlocks, OfGraphs};
ghost use Rattle.sheet.specs.Theorems.{SheetsAreTraced};

/// The path that is traced in the unaltered tables of a sheet is the one that its definition shows.
pub fn sheets_are_traced()
    ensures blocks { OfBlocks SheetsAreTraced }
    ensures graphs { OfGraphs SheetsAreTraced }
{}
