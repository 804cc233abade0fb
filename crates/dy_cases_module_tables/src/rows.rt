//! Modules as rows, and what is asked of their tables.

/// A use clause.
pub(crate) struct UseRow {
    pub(crate) source: usize,
    pub(crate) excluded: &'static [&'static str],
    /// Names with their new names.
    pub(crate) renamed: &'static [(&'static str, &'static str)],
    pub(crate) prefix: &'static str,
    pub(crate) again_all: bool,
}

/// A module with the names that it creates and those that it exports.
pub(crate) struct ModuleRow {
    pub(crate) created: &'static [&'static str],
    pub(crate) listed: &'static [&'static str],
    pub(crate) uses: &'static [UseRow],
}

/// What is asked of a table, with the answer. Definitions are numbered.
pub(crate) enum Step {
    /// Whether a module may define a name so.
    Define(u32, &'static str, u32, bool),
    /// What a module sees a name defined as.
    Owner(u32, &'static str, Option<u32>),
    /// The promised name that has no definition.
    Undefined(Option<&'static str>),
}

/// A use clause that brings all names as they are.
const PLAIN: UseRow = UseRow {
    source: 0,
    excluded: &[],
    renamed: &[],
    prefix: "",
    again_all: false,
};

/// A module without names and clauses.
const EMPTY: ModuleRow = ModuleRow {
    created: &[],
    listed: &[],
    uses: &[],
};

/// Module 0 creates f and exports g; module 1 uses it with a prefix and a new name for f, and
/// exports all again; module 2 uses module 1 without the name k.
pub(crate) static CHAIN: [ModuleRow; 3] = [
    ModuleRow {
        created: &["f"],
        listed: &["g"],
        uses: &[],
    },
    ModuleRow {
        created: &[],
        listed: &["k"],
        uses: &[UseRow {
            source: 0,
            excluded: &[],
            renamed: &[("f", "h")],
            prefix: "a-",
            again_all: true,
        }],
    },
    ModuleRow {
        created: &[],
        listed: &[],
        uses: &[UseRow {
            source: 1,
            excluded: &["k"],
            renamed: &[],
            prefix: "",
            again_all: false,
        }],
    },
];

pub(crate) static CHAIN_STEPS: [Step; 20] = [
    Step::Undefined(Some("f")),
    // The creating module defines no name that it creates; one that uses it does.
    Step::Define(0, "F", 1, false),
    Step::Define(2, "h", 1, false),
    Step::Define(1, "h", 1, true),
    Step::Define(1, "h", 2, false),
    Step::Undefined(Some("g")),
    Step::Owner(0, "F", Some(1)),
    Step::Owner(1, "h", Some(1)),
    Step::Owner(2, "h", Some(1)),
    Step::Owner(1, "f", None),
    // An exported name is its module's own, and what is imported is defined nowhere else.
    Step::Define(1, "a-g", 3, false),
    Step::Define(0, "g", 3, true),
    Step::Owner(2, "a-g", Some(3)),
    // A name that is left out is another one.
    Step::Define(1, "k", 4, true),
    Step::Undefined(None),
    Step::Define(2, "k", 5, true),
    Step::Owner(1, "k", Some(4)),
    Step::Owner(2, "k", Some(5)),
    // There is no such module.
    Step::Define(3, "k", 6, false),
    Step::Owner(3, "k", None),
];

/// A module that uses itself.
pub(crate) static RING: [ModuleRow; 1] = [ModuleRow {
    uses: &[PLAIN],
    ..EMPTY
}];

/// One name of two owners.
pub(crate) static TWO_OWNERS: [ModuleRow; 3] = [
    ModuleRow {
        listed: &["f"],
        ..EMPTY
    },
    ModuleRow {
        created: &["f"],
        ..EMPTY
    },
    ModuleRow {
        uses: &[PLAIN, UseRow { source: 1, ..PLAIN }],
        ..EMPTY
    },
];

/// One owner by two ways.
pub(crate) static TWO_WAYS: [ModuleRow; 3] = [
    ModuleRow {
        listed: &["f"],
        ..EMPTY
    },
    ModuleRow {
        uses: &[UseRow {
            again_all: true,
            ..PLAIN
        }],
        ..EMPTY
    },
    ModuleRow {
        uses: &[PLAIN, UseRow { source: 1, ..PLAIN }],
        ..EMPTY
    },
];
