//! The commands, from their words to the exit status.

ghost use Rattle.std.specs.Prelude.{◌≡◌, ◌≢◌, ◌<◌, ◌≤◌, ◌⊎◌, ◌++◌, ℕ, List, length, map, Option};
ghost use Rattle.std.specs.Prelude.{Some, None, option_map, string_bytes, IfOk, IfErr};
ghost use Rattle.dy_io.specs.Causes.{Rose};
ghost use Rattle.dy_io.specs.Files.{FileMap};
ghost use Rattle.dy_io.specs.Sinks.{AppendsFront};
ghost use Rattle.dy_meaning.specs.Programs.{program_meaning};
ghost use Rattle.dy_lowering_whole.specs.valid.Scoped.{IsScoped};
ghost use Rattle.dy_lowering_whole.specs.Lowered.{IsLowered};
ghost use Rattle.dy_libraries.specs.Commands.{built_in, AreLibraries};
ghost use Rattle.dy_running.specs.Runs.{program_of, AreApart};
ghost use Rattle.dy_sources.specs.Judged.{Fails, Misses, NamesFileOf, TellsName};
ghost use Rattle.dy_sources.specs.Libraries.{AreRead};
ghost use Rattle.dy_sources.specs.Points.{point_behind, point_at};
ghost use Rattle.dy_sources.specs.Refusals.{refusal_line};
ghost use Rattle.dy_build.specs.Outcome.{usage_report};
ghost use Rattle.dy_build.specs.Command.{PutsLine, Closes, TellsHalt, RunsAs, Completes, Refuses};
ghost use Rattle.dy_build.specs.Command.{TellsFault, TellsFaultOf, Done, Outcomes, CutsShort};
ghost use Rattle.dy_build.specs.Command.{IsEnded, RunsAccepted, RunsAcceptedOf, outputs};
ghost use Rattle.dy_build.specs.Command.{AreChecked, IsMain, IsProgram, LacksProgram};
ghost use Rattle.dy_build.specs.Command.{IsAcceptedProgram};
ghost use Rattle.dy_build.specs.Words as commands;
ghost use Rattle.dy_build.specs.Words.{command_of};
ghost use Rattle.dy_build.specs.Lines.{file_fault_line};

use crate::lines::{end_line, file_fault_line, out_of_fuel_line};
use crate::words::{Command, command_words, usage};
use dy_base::fold;
use dy_code::Library;
use dy_io::{Files, Sink, WriteFail};
use dy_libraries::{Libraries, libraries_of};
use dy_running::run_libraries;
use dy_sources::{Halt, Refused, read_libraries, refusal_line, unknown_main};
use dy_values::RunEnd;
use std::alloc::Global;

/// Sends the last line of a command, and answers the status: the given one, or that of the failure.
fn put_line<E: Sink>(err: &mut E, line: &[u8], status: u8) -> u8
    ensures puts { PutsLine status line.now result (E.contents err.old) (E.contents err.new) }
    ensures fault { result ≡ 5 → status ≢ 5 → Rose (E.faults err.old) (E.faults err.new) }
    ensures faults { E.faults err.old ≤ E.faults err.new }
{
    match err.put(line) {
        Ok(()) => status,
        Err(WriteFail::Failed) => 5,
        Err(WriteFail::Memory) => 6,
    }
}

/// Sends the last line of a run that ended so, if it has one, and answers the status.
fn finish<E: Sink>(alloc: Global, end: RunEnd, err: &mut E) -> u8
    ensures closes { Closes end result (E.contents err.old) (E.contents err.new) }
    ensures fault { result ≡ 5 → (end ≡ RunEnd.WriteFault)
        ⊎ Rose (E.faults err.old) (E.faults err.new) }
    ensures faults { E.faults err.old ≤ E.faults err.new }
{
    match end {
        RunEnd::Finished => 0,
        RunEnd::Signalled(text) => match end_line(alloc, text.bytes()) {
            Ok(line) => put_line(err, &line, 1),
            Err(_) => 6,
        },
        RunEnd::OutOfFuel => put_line(err, out_of_fuel_line(), 7),
        RunEnd::WriteFault => 5,
        RunEnd::NoMemory => 6,
    }
}

/// Runs the program of libraries in load order, with so many units of fuel.
fn run<O: Sink, E: Sink>(
    alloc: Global,
    libraries: Vec<Library>,
    fuel: u64,
    out: &mut O,
    err: &mut E,
) -> u8
    requires apart { AreApart libraries.items }
    requires scoped { IsScoped (program_of libraries.items) }
    requires lowered { IsLowered (program_of libraries.items) }
    ensures runs { RunsAs (program_meaning (program_of libraries.items) fuel) result
        (outputs (O.contents out.old) (O.contents out.new) (E.contents err.old)
        (E.contents err.new)) }
    ensures fault { result ≡ 5 → Rose (O.faults out.old) (O.faults out.new)
        ⊎ Rose (E.faults err.old) (E.faults err.new) }
    ensures out_faults { O.faults out.old ≤ O.faults out.new }
    ensures err_faults { E.faults err.old ≤ E.faults err.new }
{
    let ran = run_libraries(alloc, libraries, fuel, out, err);
    finish(alloc, ran.end, err)
}

/// Sends the line of a refusal.
fn refuse<E: Sink>(alloc: Global, why: &Refused, err: &mut E) -> u8
    ensures puts { PutsLine 2 (refusal_line why.now) result (E.contents err.old)
        (E.contents err.new) }
    ensures fault { result ≡ 5 → Rose (E.faults err.old) (E.faults err.new) }
    ensures faults { E.faults err.old ≤ E.faults err.new }
{
    match refusal_line(alloc, why) {
        Ok(line) => put_line(err, &line, 2),
        Err(_) => 6,
    }
}

/// Sends the line of a file that failed. The status stays where this line cannot be sent.
fn report_fault<E: Sink>(alloc: Global, name: &[u8], err: &mut E) -> u8
    ensures line { ((result ≡ 4)
        × AppendsFront (E.contents err.old) (E.contents err.new) (file_fault_line name.now))
        ⊎ ((result ≡ 6) × (E.contents err.new ≡ E.contents err.old)) }
    ensures faults { E.faults err.old ≤ E.faults err.new }
{
    match file_fault_line(alloc, name) {
        Ok(line) => {
            let _ = err.put(&line);
            4
        }
        Err(_) => 6,
    }
}

/// Says why a command stops.
fn tell_halt<E: Sink>(alloc: Global, halt: &Halt, err: &mut E) -> u8
    ensures tells { TellsHalt halt.now result (E.contents err.old) (E.contents err.new) }
    ensures fault { result ≡ 5 → Rose (E.faults err.old) (E.faults err.new) }
    ensures faults { E.faults err.old ≤ E.faults err.new }
{
    match halt {
        Halt::Refused(why) => refuse(alloc, why, err),
        Halt::FileFault(name) => report_fault(alloc, name.bytes(), err),
        Halt::Memory => 6,
    }
}

/// The number of the library of a name, or that no library has it.
fn named_main(alloc: Global, libraries: &Libraries, name: &str) -> Result<usize, Halt>
    requires { AreLibraries libraries.now }
    ensures main { IsMain libraries.now (Some name.now) result }
    ensures there { IfOk result (λ number. number < length libraries.now.rows) }
{
    let folded = fold(alloc, name.as_bytes())?;
    match libraries.number_of(&folded) {
        Some(number) => Ok(number),
        None => Err(Halt::Refused(unknown_main(alloc, name.as_bytes())?)),
    }
}

/// The number of the main library: that of the library of this name, or the last.
#[tactic(auto, using(crate::proofs::Mains::some_rows))]
fn main_of(alloc: Global, libraries: &Libraries, main: Option<&str>) -> Result<usize, Halt>
    requires { AreLibraries libraries.now }
    ensures main { IsMain libraries.now (option_map (λ name. name.now) main.entry) result }
    ensures there { IfOk result (λ number. number < length libraries.now.rows) }
{
    match main {
        Some(name) => named_main(alloc, libraries, name),
        None => Ok(libraries.rows.len() - 1),
    }
}

/// Reads the libraries of LID files, and takes those of the main library's program, in load order.
fn read_program<F: Files>(
    alloc: Global,
    files: &mut F,
    main: Option<&str>,
    lids: &[String],
) -> Result<Vec<Library>, Halt>
    ensures program { (held : FileMap) → F.contents files.old ≡ Some held
        → IfOk result (λ program. IsProgram (AreRead held built_in (map string_bytes lids.now))
        (option_map (λ name. name.now) main.entry) program.items) }
    ensures lacks { (held : FileMap) → F.contents files.old ≡ Some held
        → IfErr result (LacksProgram (AreRead held built_in (map string_bytes lids.now))
        (option_map (λ name. name.now) main.entry)) }
    ensures accepted { IfOk result (λ program.
        IsAcceptedProgram (option_map (λ name. name.now) main.entry) program.items) }
    ensures missed { IfErr result (Misses (F.misses files.old) (F.misses files.new)) }
    ensures failed { IfErr result (Fails (F.faults files.old) (F.faults files.new)) }
    ensures named { IfErr result
        (TellsName (NamesFileOf (F.contents files.old) (map string_bytes lids.now))) }
    ensures contents { F.contents files.new ≡ F.contents files.old }
    ensures misses { F.misses files.old ≤ F.misses files.new }
    ensures faults { F.faults files.old ≤ F.faults files.new }
{
    let libraries = read_libraries(alloc, files, lids)?;
    let number = main_of(alloc, &libraries, main)?;
    Ok(libraries_of(alloc, libraries, number)?)
}

/// Builds the libraries of LID files, and runs the program of the main one with so many units of
/// fuel.
fn build<F: Files, O: Sink, E: Sink>(
    alloc: Global,
    fuel: u64,
    main: Option<&str>,
    lids: &[String],
    files: &mut F,
    out: &mut O,
    err: &mut E,
) -> u8
    ensures completes { (held : FileMap) → F.contents files.old ≡ Some held
        → Completes (commands.build fuel (option_map (λ name. name.now) main.entry)
        (map string_bytes lids.now)) held result
        (outputs (O.contents out.old) (O.contents out.new) (E.contents err.old)
        (E.contents err.new)) }
    ensures ran { IsEnded result
        → RunsAccepted (commands.build fuel (option_map (λ name. name.now) main.entry)
        (map string_bytes lids.now)) result
        (outputs (O.contents out.old) (O.contents out.new) (E.contents err.old)
        (E.contents err.new)) }
    ensures refused { result ≡ 2
        → Refuses (F.misses files.old) (F.misses files.new)
        (outputs (O.contents out.old) (O.contents out.new) (E.contents err.old)
        (E.contents err.new)) }
    ensures understood { result ≢ 3 }
    ensures failed { result ≡ 4 → Rose (F.faults files.old) (F.faults files.new) }
    ensures failed_line { result ≡ 4
        → TellsFault (F.contents files.old) (map string_bytes lids.now)
        (outputs (O.contents out.old) (O.contents out.new)
        (E.contents err.old) (E.contents err.new)) }
    ensures cut { result ≡ 5 → Rose (O.faults out.old) (O.faults out.new)
        ⊎ Rose (E.faults err.old) (E.faults err.new) }
    ensures status { result ≤ 7 }
    ensures contents { F.contents files.new ≡ F.contents files.old }
    ensures misses { F.misses files.old ≤ F.misses files.new }
    ensures faults { F.faults files.old ≤ F.faults files.new }
    ensures out_faults { O.faults out.old ≤ O.faults out.new }
    ensures err_faults { E.faults err.old ≤ E.faults err.new }
{
    match read_program(alloc, files, main, lids) {
        Ok(program) => run(alloc, program, fuel, out, err),
        Err(halt) => tell_halt(alloc, &halt, err),
    }
}

/// Checks the libraries of LID files: they are read one behind the other, as `build` does, and
/// nothing is run.
///
/// `Refused` comes with the first fault of the first library that has one; `FileFault` where the
/// files count one more failure, with the name of a file that is read for one of the LID files; and
/// `Memory` where memory ran out. No file is written.
pub fn check<F: Files>(alloc: Global, files: &mut F, lids: &[String]) -> Result<(), Halt>
    // Where the files tell what they hold, this is what the LID files come to.
    ensures verdict { (held : FileMap) → F.contents files.old ≡ Some held
        → AreChecked (AreRead held built_in (map string_bytes lids.now)) result }
    ensures missed { IfErr result (Misses (F.misses files.old) (F.misses files.new)) }
    ensures failed { IfErr result (Fails (F.faults files.old) (F.faults files.new)) }
    ensures named { IfErr result
        (TellsName (NamesFileOf (F.contents files.old) (map string_bytes lids.now))) }
    ensures contents { F.contents files.new ≡ F.contents files.old }
    ensures misses { F.misses files.old ≤ F.misses files.new }
    ensures faults { F.faults files.old ≤ F.faults files.new }
{
    read_libraries(alloc, files, lids)?;
    Ok(())
}

/// Checks the libraries of LID files, and says why one is refused. Nothing goes to the output.
fn check_lids<F: Files, E: Sink>(alloc: Global, lids: &[String], files: &mut F, err: &mut E) -> u8
    ensures completes { (out : Option (List ℕ)) (held : FileMap)
        → F.contents files.old ≡ Some held
        → Completes (commands.check (map string_bytes lids.now)) held result
        (outputs out out (E.contents err.old) (E.contents err.new)) }
    ensures ran { (out : Option (List ℕ)) → IsEnded result
        → RunsAccepted (commands.check (map string_bytes lids.now)) result
        (outputs out out (E.contents err.old) (E.contents err.new)) }
    ensures refused { (out : Option (List ℕ)) → result ≡ 2
        → Refuses (F.misses files.old) (F.misses files.new)
        (outputs out out (E.contents err.old) (E.contents err.new)) }
    ensures understood { result ≢ 3 }
    ensures failed { result ≡ 4 → Rose (F.faults files.old) (F.faults files.new) }
    ensures failed_line { (out : Option (List ℕ)) → result ≡ 4
        → TellsFault (F.contents files.old) (map string_bytes lids.now)
        (outputs out out (E.contents err.old) (E.contents err.new)) }
    ensures cut { result ≡ 5 → Rose (E.faults err.old) (E.faults err.new) }
    ensures status { result ≤ 7 }
    ensures contents { F.contents files.new ≡ F.contents files.old }
    ensures misses { F.misses files.old ≤ F.misses files.new }
    ensures faults { F.faults files.old ≤ F.faults files.new }
    ensures err_faults { E.faults err.old ≤ E.faults err.new }
{
    match check(alloc, files, lids) {
        Ok(()) => 0,
        Err(halt) => tell_halt(alloc, &halt, err),
    }
}

/// Does a command. Its words are `build [--fuel N] [--main L] LID..` or `check LID..`: the options
/// come in this order and in front of the LID files, each once at most, and there is one LID file
/// at least. Other words are not accepted.
///
/// `build` compiles the libraries of the LID files, one behind the other, and runs the program of
/// the main one: the library itself and all that it uses, directly or not. It has N units of fuel,
/// from 0 to 1,000,000,000,000 in one to thirteen digits, or 10,000,000. The main library is the
/// one of the name L, which does not begin with a hyphen, or the last; `dylan` and `io`, which are
/// built in, are known by their names too. The output of the program goes to `out`, and the last
/// line of the command, if it has one, to `err`. `check` compiles the libraries alone.
///
/// | status | comes | on `err` |
/// |---|---|---|
/// | 0 | the program ended, or `check` has nothing to refuse | nothing |
/// | 1 | the program ended by a condition that nothing handled | `unhandled CLASS: TEXT` |
/// | 2 | a library is refused, or none has the name L | the line of the refusal |
/// | 3 | the words are not accepted | the usage |
/// | 4 | a file failed | `file fault: NAME` |
/// | 5 | a sink failed | nothing more |
/// | 6 | memory ran out | nothing more |
/// | 7 | the program spent its fuel and wanted one unit more | `out of fuel` |
///
/// The first library that has a fault is refused, for the first of its faults, and those behind it
/// are not read; the name L is looked for where none is refused. After 4 the line was sent, or a
/// front of it where `err` failed too. After 5 and 6 a front of the whole output was sent, or
/// nothing. `NAME` is one of the LID files, or one of the source files that it names.
///
/// Where the files do not tell what they hold, as those of the host do not, the clauses tie no
/// status to their texts. With 0, 1 and 7 all was sent that the program of a main library comes to,
/// among libraries that some texts were judged to be, and of `check` nothing; with 2 comes the line
/// of a refusal, which says that a file is absent only where the files missed one; with 3 the usage,
/// only where the words are not accepted; with 4 the line of a LID file or of a file of a printable
/// name beside one, only where a file failed; and 5 comes only where a sink failed.
pub fn run_words<F: Files, O: Sink, E: Sink>(
    alloc: Global,
    words: &Vec<String>,
    files: &mut F,
    out: &mut O,
    err: &mut E,
) -> u8
    // The status and what was sent are those of the words' outcome, unless a file, a sink or memory
    // failed; then a front of it was sent, or nothing.
    ensures outcome { (held : FileMap) → F.contents files.old ≡ Some held
        → result ≢ 4 → result ≢ 5 → result ≢ 6
        → Outcomes (map string_bytes words.now.items) held result
        (outputs (O.contents out.old) (O.contents out.new)
        (E.contents err.old) (E.contents err.new)) }
    ensures cut_short { (held : FileMap) → F.contents files.old ≡ Some held
        → (result ≡ 5) ⊎ (result ≡ 6)
        → CutsShort (map string_bytes words.now.items) held
        (outputs (O.contents out.old) (O.contents out.new)
        (E.contents err.old) (E.contents err.new)) }

    // Each status has its cause, whatever the files tell.
    ensures ran { IsEnded result
        → RunsAcceptedOf (command_of (map string_bytes words.now.items)) result
        (outputs (O.contents out.old) (O.contents out.new)
        (E.contents err.old) (E.contents err.new)) }
    ensures refused { result ≡ 2
        → Refuses (F.misses files.old) (F.misses files.new)
        (outputs (O.contents out.old) (O.contents out.new)
        (E.contents err.old) (E.contents err.new)) }
    ensures usage_only { result ≡ 3 → command_of (map string_bytes words.now.items) ≡ None }
    ensures usage { command_of (map string_bytes words.now.items) ≡ None
        → result ≢ 5 → result ≢ 6
        → Done usage_report result
        (outputs (O.contents out.old) (O.contents out.new)
        (E.contents err.old) (E.contents err.new)) }
    ensures failed { result ≡ 4 → Rose (F.faults files.old) (F.faults files.new) }
    ensures failed_line { result ≡ 4
        → TellsFaultOf (command_of (map string_bytes words.now.items)) (F.contents files.old)
        (outputs (O.contents out.old) (O.contents out.new)
        (E.contents err.old) (E.contents err.new)) }
    ensures cut { result ≡ 5
        → Rose (O.faults out.old) (O.faults out.new) ⊎ Rose (E.faults err.old) (E.faults err.new) }
    ensures status { result ≤ 7 }

    // No file is written, and no count falls.
    ensures contents { F.contents files.new ≡ F.contents files.old }
    ensures misses { F.misses files.old ≤ F.misses files.new }
    ensures faults { F.faults files.old ≤ F.faults files.new }
    ensures out_faults { O.faults out.old ≤ O.faults out.new }
    ensures err_faults { E.faults err.old ≤ E.faults err.new }

    // A place is told by what stands before it.
    ensures places { (front rest : List ℕ)
        → point_at (front ++ rest) (length front) ≡ point_behind front }
{
    match command_words(words) {
        Some(Command::Build { fuel, main, lids }) => build(
            alloc, fuel, main, lids, files, out, err,
        ),
        Some(Command::Check { lids }) => check_lids(alloc, lids, files, err),
        None => put_line(err, usage(), 3),
    }
}
