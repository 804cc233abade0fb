//! The program of a text, and both runs of it.

ghost use Rattle.std.specs.Prelude.{◌≤◌};

use dy_base::Text;
use dy_build::run_words;
use dy_evaluate::evaluate;
use dy_io::{MemFiles, MemSink};
use dy_sources::{Halt, read_libraries};
use dy_term::Program;
use dy_values::RunEnd;
use std::alloc::{AllocError, AllocFailed, Global};

/// The file that defines the library `cases`.
const LIBRARY: &[u8] = b"module: dylan-user\n\n\
    define library cases use dylan; use io; end;\n\
    define module cases use dylan; use format-out; end;\n";

/// How a run ended, and what it printed.
#[derive(Drop)]
pub(crate) struct Seen {
    pub(crate) end: RunEnd,
    pub(crate) out: MemSink,
}

/// Why a text has no runs.
#[derive(Debug, Drop)]
pub(crate) enum Trouble {
    /// The library is refused.
    Refused,
    Memory,
}

impl From<AllocError> for Trouble {
    ghost use Rattle.std.specs.Prelude.{◌≡◌};
    ghost use Rattle.dy_cases.specs.declared.programs.Trouble.TheVariants.{Memory};

    ghost from_gives = { λ _ trouble. trouble ≡ Memory };

    fn from(_error: AllocError) -> Trouble {
        Trouble::Memory
    }
}

impl<T: Drop> From<AllocFailed<T>> for Trouble {
    ghost use Rattle.std.specs.Prelude.{◌≡◌};
    ghost use Rattle.dy_cases.specs.declared.programs.Trouble.TheVariants.{Memory};

    ghost from_gives = { λ _ trouble. trouble ≡ Memory };

    fn from(_error: AllocFailed<T>) -> Trouble {
        Trouble::Memory
    }
}

/// The files of the library with these forms.
fn files_of(alloc: Global, forms: &str) -> Result<MemFiles, AllocError> {
    let mut source = Vec::from_slice(alloc, b"module: cases\n\n")?;
    source.extend_from_slice(forms.as_bytes())?;
    let mut files = MemFiles::new(alloc);
    files.add("cases.lid", b"library: cases\nfiles: library\n cases\n")?;
    files.add("library.dylan", LIBRARY)?;
    files.add("cases.dylan", &source)?;
    Ok(files)
}

fn add_word(alloc: Global, words: &mut Vec<String>, word: &str) -> Result<(), AllocError> {
    words.push(String::from_str(alloc, word)?)?;
    Ok(())
}

/// The words that build the library with so many units of fuel.
fn words_of(alloc: Global, fuel: u64) -> Result<Vec<String>, AllocError> {
    let mut words = Vec::new(alloc);
    add_word(alloc, &mut words, "build")?;
    add_word(alloc, &mut words, "--fuel")?;
    words.push(format!(in alloc; "{fuel}")?)?;
    add_word(alloc, &mut words, "cases.lid")?;
    Ok(words)
}

/// How a run ended, by the status of its command and what this sent to the error output.
fn end_of(alloc: Global, status: u8, line: &[u8]) -> Result<RunEnd, Trouble> {
    match status {
        0 => Ok(RunEnd::Finished),
        1 => {
            let text = line.strip_suffix(b"\n".as_slice()).unwrap_or(line);
            Ok(RunEnd::Signalled(Text::of(alloc, text)?))
        }
        2 => Err(Trouble::Refused),
        7 => Ok(RunEnd::OutOfFuel),
        _ => Ok(RunEnd::NoMemory),
    }
}

/// What the machine does with the program.
fn run_machine(alloc: Global, files: &mut MemFiles, fuel: u64) -> Result<Seen, Trouble> {
    let words = words_of(alloc, fuel)?;
    let (mut out, mut err) = (MemSink::new(alloc), MemSink::new(alloc));
    let status = run_words(alloc, &words, files, &mut out, &mut err);
    let end = end_of(alloc, status, err.bytes())?;
    Ok(Seen { end, out })
}

/// The program of the library, whose rows name `dylan`, `io` and itself by their places in it.
fn program_of(alloc: Global, files: &mut MemFiles) -> Result<Program, Trouble> {
    let mut lids = Vec::new(alloc);
    add_word(alloc, &mut lids, "cases.lid")?;
    match read_libraries(alloc, files, &lids) {
        Ok(libraries) => Ok(Program {
            libraries: libraries.rows,
        }),
        Err(Halt::Refused(_)) => Err(Trouble::Refused),
        Err(Halt::FileFault(_) | Halt::Memory) => Err(Trouble::Memory),
    }
}

/// What the evaluator does with the program.
fn run_evaluator(alloc: Global, files: &mut MemFiles, fuel: u64) -> Result<Seen, Trouble>
    requires { fuel ≤ 10000 }
{
    let program = program_of(alloc, files)?;
    let mut out = MemSink::new(alloc);
    let end = evaluate(alloc, &program, fuel, &mut out);
    Ok(Seen { end, out })
}

/// What the machine does with the program of the forms of a text, and what the evaluator does with
/// it.
pub(crate) fn run_both(alloc: Global, text: &str, fuel: u64) -> Result<(Seen, Seen), Trouble>
    requires { fuel ≤ 10000 }
{
    let mut files = files_of(alloc, text)?;
    let machine = run_machine(alloc, &mut files, fuel)?;
    let plain = run_evaluator(alloc, &mut files, fuel)?;
    Ok((machine, plain))
}
