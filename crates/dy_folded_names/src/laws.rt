//! The law of names of modules, which are in lower case.

ghost use Rattle.dy_folded_names.specs.Folded.{FormsAreLower, TablesAreFolded, ExportedAreLower};
ghost use Rattle.dy_folded_names.specs.Folded.{BuiltInAreLower};

/// What holds of the names of modules.
pub fn folded_name_laws()
    // Those of forms that are read are in lower case.
    ensures forms { FormsAreLower }
    // So are those of the table of such forms, where those are that used libraries export.
    ensures tables { TablesAreFolded }
    // So are those that it exports.
    ensures exported { ExportedAreLower }
    // So are those of a library which exports all its rows, as `dylan` and `io`.
    ensures built_in { BuiltInAreLower }
{}
