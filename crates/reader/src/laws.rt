// The laws of the format, which tie what is read to what is written.
ghost use Rattle.reader.specs.Files.{GoodAccepted, AcceptedGood, OneReading, PrefixRefused, SizeRefused};

// A good file is accepted with just its records; what is accepted is a good file; no file has two readings; a good
// file that is cut short is refused, and so is one of no bytes or of too many.
pub fn format_laws()
    ensures accepted { GoodAccepted }
    ensures good { AcceptedGood }
    ensures once { OneReading }
    ensures short { PrefixRefused }
    ensures size { SizeRefused }
{}
