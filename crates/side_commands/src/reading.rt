//! Reading one file.

ghost use Rattle.std.specs.Prelude.{◌≡◌};
ghost use Rattle.outside.specs.Files.{HasFile};
ghost use Rattle.source_files.specs.Reading.{HasNamed};
ghost use Rattle.side_commands.specs.Migration.{IsFileRead};

use outside::{Files, ReadFail};
use rlc_base::Text;
use std::alloc::Global;

/// The bytes of the file of this name.
pub fn read_file<F: Files>(alloc: Global, name: &str, files: &mut F) -> Result<Text, ReadFail>
    ensures cause { IsFileRead (F.contents files.old) name.now (record { faults = F.faults files.old; faults_now = F.faults files.new; taken = F.taken files.old; taken_now = F.taken files.new }) result }
    ensures told { F.contents files.new ≡ F.contents files.old }
    ensures holds { F.sound files.old → HasNamed (F.contents files.old) name.now → F.faults files.new ≡ F.faults files.old }
{
    let mut bytes = Vec::new(alloc);
    match files.read(name, &mut bytes) {
        Ok(()) => {}
        Err(ReadFail::Failed) => return Err(ReadFail::Failed),
        Err(ReadFail::TooBig) => return Err(ReadFail::TooBig),
        Err(ReadFail::NoMemory) => return Err(ReadFail::NoMemory),
    }
    Ok(Text::from_bytes(bytes))
}
