//! Cases as texts.
//!
//! A case begins with what its first file holds, a file of `dylan-user`. `@file m1` begins a file
//! of the module `m1`, whose number is 1. Each other line that begins with `@` is a question.

use std::alloc::{AllocError, Global};

/// A source file.
#[derive(Drop)]
pub(crate) struct File {
    pub(crate) module: String,
    pub(crate) text: String,
}

impl File {
    fn new(alloc: Global, module: &str) -> Result<File, AllocError> {
        Ok(File {
            module: String::from_str(alloc, module)?,
            text: format!(in alloc; "module: {module}\n\n")?,
        })
    }

    fn add(&mut self, line: &str) -> Result<(), AllocError> {
        self.text.push_str(line)?;
        self.text.push('\n')
    }

    /// The number of the file's module, or `None` for `dylan-user`.
    pub(crate) fn module_number(&self) -> Option<u32> {
        self.module.as_str().strip_prefix("m")?.parse().ok()
    }
}

/// Files, and what is asked of names.
#[derive(Drop)]
pub(crate) struct Case {
    pub(crate) files: Vec<File>,
    pub(crate) questions: Vec<String>,
}

impl Case {
    pub(crate) fn of(alloc: Global, text: &str) -> Result<Case, AllocError> {
        let mut case = Case {
            files: Vec::new(alloc),
            questions: Vec::new(alloc),
        };
        case.files.push(File::new(alloc, "dylan-user")?)?;
        for line in text.split('\n') {
            case.take(alloc, line)?;
        }
        Ok(case)
    }

    fn take(&mut self, alloc: Global, line: &str) -> Result<(), AllocError> {
        if let Some(module) = line.strip_prefix("@file ") {
            self.files.push(File::new(alloc, module)?)?;
            Ok(())
        } else if let Some(question) = line.strip_prefix("@") {
            self.questions.push(String::from_str(alloc, question)?)?;
            Ok(())
        } else {
            self.add(line)
        }
    }

    fn add(&mut self, line: &str) -> Result<(), AllocError> {
        match self.files.last_mut() {
            Some(file) => file.add(line),
            None => Ok(()),
        }
    }
}
