//! The trees of all files are determined by the numbers of the files and their bytes. Each law is the contract of a function that does
//! nothing.

ghost use Rattle.std.specs.Prelude.{◌≡◌, List, map};
ghost use Rattle.rlc_base.specs.declared.faults.Stop.TheVariants as stops;
ghost use Rattle.program_front.specs.Trees.{AreTrees, IsTreesStop};
ghost use Rattle.program_reading.specs.Numbering.{number_and_bytes};
ghost use Rattle.reading_laws.specs.SameTrees.{AreSameStops, AreSameTrees};

use program_front::{InputFile, Trees};
use rlc_base::Stop;

/// Files have one list of trees.
pub fn trees_are_one()
    ensures { (stubs sources others more : List InputFile) (t u : Trees) → map number_and_bytes stubs ≡ map number_and_bytes others → map number_and_bytes sources ≡ map number_and_bytes more → AreTrees stubs sources t → AreTrees others more u → AreSameTrees t u }
{}

/// Files that have trees are not refused.
pub fn trees_have_no_stop()
    ensures { (stubs sources others more : List InputFile) (t : Trees) (stop : Stop) → map number_and_bytes stubs ≡ map number_and_bytes others → map number_and_bytes sources ≡ map number_and_bytes more → AreTrees stubs sources t → IsTreesStop others more stop → stop ≡ stops.NoMemory }
{}

/// Files that have no trees are refused by one code, at one place.
pub fn trees_stop_is_one()
    ensures { (stubs sources others more : List InputFile) (stop other : Stop) → map number_and_bytes stubs ≡ map number_and_bytes others → map number_and_bytes sources ≡ map number_and_bytes more → IsTreesStop stubs sources stop → IsTreesStop others more other → AreSameStops stop other }
{}
