//! The trees of a command's files are determined by its words and the texts. Each law is the contract of a function that does nothing.

ghost use Rattle.std.specs.Prelude.{◌≡◌, ℕ, List, map};
ghost use Rattle.rlc_base.specs.declared.faults.Stop.TheVariants as stops;
ghost use Rattle.java_syntax.specs.DeclarationTrees.{unit_of};
ghost use Rattle.program_reading.specs.Fronts.{IsFilesStop, IsFront};
ghost use Rattle.reading_laws.specs.SameTrees.{AreSameStops};

use java_syntax::Unit;
use rlc_base::Stop;

/// The files have one list of sections of stubs, and one of Java sources.
pub fn front_is_one()
    ensures sections { (words texts : List (List ℕ)) (sections sources others more : List Unit) → IsFront words texts sections sources → IsFront words texts others more → map unit_of sections ≡ map unit_of others }
    ensures sources { (words texts : List (List ℕ)) (sections sources others more : List Unit) → IsFront words texts sections sources → IsFront words texts others more → map unit_of sources ≡ map unit_of more }
{}

/// Files that have trees are not refused.
pub fn front_has_no_stop()
    ensures { (words texts : List (List ℕ)) (sections sources : List Unit) (stop : Stop) → IsFront words texts sections sources → IsFilesStop words texts stop → stop ≡ stops.NoMemory }
{}

/// Files that have no trees are refused by one code, at one place.
pub fn files_stop_is_one()
    ensures { (words texts : List (List ℕ)) (stop other : Stop) → IsFilesStop words texts stop → IsFilesStop words texts other → AreSameStops stop other }
{}
