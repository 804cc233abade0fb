//! The program `dy_cases SUBJECT/TABLE..`: cases whose texts stand in tables.
//!
//! The first part of a table's name is its subject, which the crate of that name shows; commands
//! and runs are shown here.
#![tactic(auto)]

mod commands;
mod layout;
mod programs;
mod runs;

use commands::shown_command;
use dy_cases_table::{Subject, compare_tables};
use runs::shown_run;
use std::alloc::{AllocError, Global};
use std::process::ExitCode;

/// The cases of all subjects.
struct Cases;

impl Subject for Cases {
    fn shown(&self, alloc: Global, table: &str, text: &str) -> Result<String, AllocError> {
        let (subject, name) = table.split_once('/').unwrap_or((table, ""));
        match subject {
            "code" => dy_cases_code::show(alloc, text),
            "commands" => shown_command(alloc, text),
            "evaluate" => dy_cases_evaluate::show(alloc, text),
            "forms" => dy_cases_forms::show(alloc, name, text),
            "limits" => dy_cases_limits::show(alloc, text),
            "machine" => shown_run(alloc, text),
            "module_names" => dy_cases_module_names::show(alloc, text),
            "modules" => dy_cases_modules::show(alloc, text),
            "order" => dy_cases_order::show(alloc, name, text),
            "scope" => dy_cases_scope::show(alloc, name, text),
            "values" => dy_cases_values::show(alloc, text),
            _ => String::from_str(alloc, "no crate shows this subject"),
        }
    }
}

fn main(rt: HostRuntime) -> ExitCode {
    compare_tables(&rt, &Cases)
}
