//! The libraries of LID files, one behind the other.

ghost use Rattle.std.specs.Prelude.{◌≡◌, ◌≤◌, Some, IfOk, IfErr, OnOk, map, string_bytes};
ghost use Rattle.dy_io.specs.Files.{FileMap};
ghost use Rattle.dy_libraries.specs.Commands.{built_in, AreLibraries};
ghost use Rattle.dy_sources.specs.Libraries.{with_read, AreRead, IsAccepted, AreAccepted};
ghost use Rattle.dy_sources.specs.Judged.{AllJudged, Fails, Misses, TellsName};
ghost use Rattle.dy_sources.specs.Judged.{NamesFileOf};

use crate::source::{Halt, read_library};
use dy_io::Files;
use dy_libraries::{Libraries, built_in_libraries};
use dy_verdict::ReadLibrary;
use std::alloc::{AllocError, Global};

/// Puts a library that was read behind the others.
fn add_read(libraries: &mut Libraries, read: ReadLibrary) -> Result<(), AllocError>
    requires libraries { AreLibraries libraries.old }
    requires accepted { IsAccepted libraries.old read }
    ensures added { OnOk result (libraries.new ≡ with_read libraries.old read) }
    ensures libraries { OnOk result (AreLibraries libraries.new) }
{
    let ReadLibrary {
        row,
        exports,
        uses,
        order,
    } = read;
    libraries.add(row, exports, uses, order)
}

/// The libraries of a command: those that are built in, and behind them those of LID files, each
/// read as `read_library` does behind the ones in front of it. A command has at most 64 LID files,
/// beside the libraries that are built in. The first library that is refused, the first file that
/// failed, or want of memory ends it, and no library behind is read.
pub fn read_libraries<F: Files>(
    alloc: Global,
    files: &mut F,
    lids: &[String],
) -> Result<Libraries, Halt>
    // Where the files tell what they hold, they are what the LID files come to.
    ensures verdict { (held : FileMap) → F.contents files.old ≡ Some held
        → AllJudged (AreRead held built_in (map string_bytes lids.now)) result }
    // Whatever the files tell, each library is what some texts come to behind those in front of it.
    ensures accepted { IfOk result AreAccepted }
    ensures libraries { IfOk result AreLibraries }
    ensures missed { IfErr result (Misses (F.misses files.old) (F.misses files.new)) }
    ensures failed { IfErr result (Fails (F.faults files.old) (F.faults files.new)) }
    ensures named { IfErr result
        (TellsName (NamesFileOf (F.contents files.old) (map string_bytes lids.now))) }
    ensures contents { F.contents files.new ≡ F.contents files.old }
    ensures misses { F.misses files.old ≤ F.misses files.new }
    ensures faults { F.faults files.old ≤ F.faults files.new }
{
    let mut libraries = built_in_libraries(alloc)?;
    for lid in lids {
        let read = read_library(alloc, files, lid.as_str(), &libraries)?;
        add_read(&mut libraries, read)?;
    }
    Ok(libraries)
}
