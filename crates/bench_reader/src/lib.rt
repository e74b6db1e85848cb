// The reader as the benchmark's C program calls it.
#![tactic(auto)]

ghost use Rattle.std.specs.Prelude.{◌≡◌, Ok, Err};
ghost use Rattle.reader.specs.Format.{scanned};
ghost use Rattle.reader.specs.Listing.{counted};
ghost use Rattle.reader.specs.declared.records.Kind.TheVariants.{FalseSets};

use reader::{Kind, count};

// How many value lines a false-set file has; 0 where it is refused.
#[unsafe(no_mangle)]
pub extern "C" fn ripotyngue_count_false_sets(bytes: &[u8]) -> u64
    ensures { result ≡ elim (counted (scanned FalseSets bytes.now)) [ Ok n ↦ n | Err e ↦ 0 ] }
{
    match count(Kind::FalseSets, bytes) {
        Ok(lines) => lines as u64,
        Err(_) => 0,
    }
}
