//! Files as the table of their modules.

use crate::files::File;
use crate::forms::fragments_of;
use crate::libraries::libraries;
use dy_base::{Fault, Items, Name, Refusal, fold};
use dy_doubled::{TakenNames, redefined};
use dy_graph::graph;
use dy_module_tables::ModuleTable;
use dy_tree::{Fragment, Words};
use std::alloc::{AllocError, Global};

fn headers(alloc: Global, files: &[File]) -> Result<Vec<Name>, AllocError> {
    let mut headers = Vec::new(alloc);
    for file in files {
        headers.push(fold(alloc, file.module.as_bytes())?)?;
    }
    Ok(headers)
}

/// The fragments of the files of `dylan-user`.
fn fragments(alloc: Global, files: &[File], words: &Words) -> Result<Vec<Fragment>, Refusal> {
    let mut forms = Vec::new(alloc);
    for (number, file) in files.iter().enumerate() {
        if file.module_number().is_none() {
            for fragment in fragments_of(alloc, number, 0, file, words)?.into_vec() {
                forms.push(fragment)?;
            }
        }
    }
    Ok(forms)
}

/// The table of the modules of the library `l`, which has these files, with the faults of modules
/// whose names are taken; or its fault.
pub(crate) fn table_of(
    alloc: Global,
    files: &[File],
    words: &Words,
) -> Result<(ModuleTable, Items<Fault>), Refusal> {
    let forms = fragments(alloc, files, words)?;
    let (library, used) = (fold(alloc, b"l")?, libraries(alloc)?);
    let table = graph(alloc, &library, &headers(alloc, files)?, &forms, &used)?;
    let TakenNames {
        library: own,
        modules,
    } = redefined(alloc, &library, &forms, &used, used.as_slice())?;
    match own {
        Some(fault) => Err(Refusal::Fault(fault)),
        None => Ok((table, modules)),
    }
}
