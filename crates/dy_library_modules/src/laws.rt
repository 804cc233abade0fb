//! Laws of the texts of a library and of the files that define it.

ghost use Rattle.std.specs.Prelude.{◌≡◌, ℕ, true, List, ◌∷◌, ◌++◌, map, Some, None, Result, Ok};
ghost use Rattle.dy_base.specs.declared.fault.Fault.{Fault};
ghost use Rattle.dy_tree.specs.declared.words.Words.{Words};
ghost use Rattle.dy_tree.specs.Fragments.{SeenFragment};
ghost use Rattle.dy_lexer.specs.declared.source.Source.{Source};
ghost use Rattle.dy_module_forms.specs.declared.written.Form.{Form};
ghost use Rattle.dy_module_forms.specs.Forms.{forms_of};
ghost use Rattle.dy_modules.specs.Clauses.{Name};
ghost use Rattle.dy_views.specs.declared.compiled.Compiled.{Compiled};
ghost use Rattle.dy_library_modules.specs.declared.lexing.Lexed.{Lexed};
ghost use Rattle.dy_library_modules.specs.declared.own_modules.LibraryModules.{LibraryModules};
ghost use Rattle.dy_library_modules.specs.Texts.{AreLexed, RefusesTexts, GivesSources};
ghost use Rattle.dy_library_modules.specs.Texts.{is_header, faults_of, first_header, first_fault};
ghost use Rattle.dy_library_modules.specs.declared.lexing.Lexed.TheVariants.{Read, Faulty};
ghost use Rattle.dy_library_modules.specs.Users.{AreUsers};
ghost use Rattle.dy_library_modules.specs.Modules.{RefusesModules, GivesModules};
ghost use Rattle.dy_library_modules.specs.Modules.{TablesAreOne, TableFaultsAreOne};

/// What holds of the texts of every library, and of the files that define it.
pub fn module_phase_laws()
    // No texts are lexed in two ways.
    ensures lexed { (number : ℕ) (texts : List (List ℕ)) (one other : List Lexed)
        → AreLexed number texts one → AreLexed number texts other → one ≡ other }
    // The first fault of a header is told before all others, and else that of the first file.
    ensures header_first { (some others : List Lexed) (fault : Fault) → is_header fault ≡ true
        → first_header (faults_of some) ≡ None
        → first_fault (some ++ Faulty fault ∷ others) ≡ Some fault }
    ensures faulty_first { (some : List Source) (others : List Lexed) (fault : Fault)
        → first_header (faults_of (Faulty fault ∷ others)) ≡ None
        → first_fault (map Read some ++ Faulty fault ∷ others) ≡ Some fault }
    // No texts have two first faults, or are two lists of files, or both.
    ensures one_fault { (texts : List (List ℕ)) (one other : Fault) → RefusesTexts texts one
        → RefusesTexts texts other → one ≡ other }
    ensures one_reading { (texts : List (List ℕ)) (one other : List Source)
        → GivesSources texts one → GivesSources texts other → one ≡ other }
    ensures apart { (texts : List (List ℕ)) (sources : List Source) (fault : Fault)
        → GivesSources texts sources → RefusesTexts texts fault → ⊥ }
    // The files that define a library have one list of trees, or one first fault.
    ensures users { (words : Words) (sources : List Source)
        (one other : Result (List SeenFragment) Fault) → AreUsers words sources one
        → AreUsers words sources other → one ≡ other }
    // The trees of files that are read, one file behind the other, are forms.
    ensures joined { (words : Words) (texts : List (List ℕ)) (sources : List Source)
        (trees : List SeenFragment) → GivesSources texts sources
        → AreUsers words sources (Ok trees) → (forms : List Form) × (forms_of trees ≡ Ok forms) }
    // What has modules has no fault.
    ensures modules_apart { (words : Words) (library : Name) (sources : List Source)
        (compiled : Compiled) (found : LibraryModules) (fault : Fault)
        → GivesModules words library sources compiled found
        → RefusesModules words library sources compiled fault → ⊥ }
    // Where the answer of `graph` is one, it has one list of modules, or one first fault.
    ensures one_modules { TablesAreOne → (words : Words) (library : Name) (sources : List Source)
        (compiled : Compiled) (one other : LibraryModules)
        → GivesModules words library sources compiled one
        → GivesModules words library sources compiled other → one ≡ other }
    ensures one_modules_fault { TableFaultsAreOne → (words : Words) (library : Name)
        (sources : List Source) (compiled : Compiled) (one other : Fault)
        → RefusesModules words library sources compiled one
        → RefusesModules words library sources compiled other → one ≡ other }
{}
