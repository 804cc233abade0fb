//! The program `dy_measure WHAT OF..`: does one part of a compiler's work by itself, and prints a
//! number or a text of it. It is there to be measured.
//!
//! `tokens FILE` prints how many tokens a source file has, by `lex`, and `modules FILE` too, when
//! the table of its modules is made. `texts FILE` prints a text with directives, by `format_text`.
//! `chain COUNT` and `lattice COUNT` order the classes of a graph, by `class_order`, and print the
//! sum of the lengths of their orders. `sorting METHODSxTIMES` sorts the methods of a generic
//! function, by `sorted`, so often, and prints their number.
#![tactic(auto)]

mod classes;
mod failure;
mod files;
mod modules;
mod rows;
mod sorting;
mod texts;
mod tokens;

use classes::{Graph, total};
use dy_io::{Files, HostFiles, HostSink, Sink};
use failure::Failure;
use files::{print, read};
use modules::count_in_table;
use sorting::sort;
use std::alloc::Global;
use std::process::ExitCode;
use std::{env, io};
use texts::formatted;
use tokens::count;

/// The words after the program's name.
fn words(rt: &HostRuntime, alloc: Global) -> io::Result<Vec<String>> {
    let mut words = Vec::new(alloc);
    for word in env::args(rt)?.skip(1) {
        words.push(word)?;
    }
    Ok(words)
}

/// Does the work of this name on what is named behind it.
fn measure<F: Files, S: Sink>(
    alloc: Global,
    files: &mut F,
    out: &mut S,
    what: &str,
    of: &str,
) -> Result<(), Failure> {
    match what {
        "tokens" => print(out, count(alloc, &read(alloc, files, of)?)?)?,
        "modules" => print(out, count_in_table(alloc, &read(alloc, files, of)?)?)?,
        "texts" => out.put(&formatted(alloc, &read(alloc, files, of)?)?)?,
        "chain" => print(out, total(alloc, Graph::Chain, of)?)?,
        "lattice" => print(out, total(alloc, Graph::Lattice, of)?)?,
        "sorting" => print(out, sort(alloc, of)?)?,
        _ => return Err(Failure::Words),
    }
    Ok(())
}

fn run(rt: &HostRuntime) -> Result<(), Failure> {
    let alloc = rt.alloc();
    let words = words(rt, alloc).map_err(|_| Failure::Words)?;
    let mut files = HostFiles::new(rt);
    let mut out = HostSink::new(rt.stdout());
    for pair in words.as_slice().chunks(2) {
        match pair {
            [what, of] => measure(alloc, &mut files, &mut out, what, of)?,
            _ => return Err(Failure::Words),
        }
    }
    if words.is_empty() {
        Err(Failure::Words)
    } else {
        Ok(())
    }
}

fn main(rt: HostRuntime) -> ExitCode {
    match run(&rt) {
        Ok(()) => ExitCode::from(0),
        Err(failure) => ExitCode::from(failure.status()),
    }
}
