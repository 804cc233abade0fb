//! Laws of the grammar.

ghost use Rattle.std.specs.Prelude.{◌≡◌, ◌<◌, ◌≤◌, Bool, true, List, Option, Some};
ghost use Rattle.dy_tree.specs.Fragments.{SeenFragment, SeenFragments, row};
ghost use Rattle.dy_tree.specs.declared.splitters.Splitting.{Splitting};
ghost use Rattle.dy_tree.specs.declared.splitters.Splitting.TheVariants as splittings;
ghost use Rattle.dy_rules.specs.ConstantTrees.{Constant};
ghost use Rattle.dy_rules.specs.Trees.{Tree, Argument, ItemTree, body_of};
ghost use Rattle.dy_rules.specs.Productions.{Derives, expression, arguments, a_body};
ghost use Rattle.dy_rules.specs.Fragments.{expression_of, passed_of, body_of_fragments, items_of};
ghost use Rattle.dy_rules.specs.Arguments.{is_single};
ghost use Rattle.dy_rules.specs.Writing.{written, written_body};
ghost use Rattle.dy_rules.specs.Constants.{IsConstant, in_list, in_vector};
ghost use Rattle.dy_rules.specs.ConstantReading.{Inside, inside, list_in, vector_in};
ghost use Rattle.dy_rules.specs.Types.{TypeTree, a_type, IsType, TargetTree, IsTarget};
ghost use Rattle.dy_rules.specs.TypeReading.{type_items, target_items};
ghost use Rattle.dy_rules.specs.TypeWriting.{written_type, written_target};
ghost use Rattle.dy_rules.specs.Forms.{FormTree, IsForm};
ghost use Rattle.dy_rules.specs.FormReading.{form_of};
ghost use Rattle.dy_rules.specs.FormWriting.{written_form};
ghost use Rattle.dy_rules.specs.Depth.{depth_limit};
ghost use Rattle.dy_rules.specs.FormDepth.{form_depth};
ghost use Rattle.dy_rules.specs.Parsing.{parsed, accepted, too_deep, no_form};

/// What holds of the expressions that fragments stand for.
pub fn expression_laws()
    // What is read is derived.
    ensures reads { (words : Splitting) (fragments : List SeenFragment) (tree : Tree)
        → expression_of words fragments ≡ Some tree → Derives words (expression tree) fragments }
    // What is derived is read.
    ensures all { (words : Splitting) (fragments : List SeenFragment) (tree : Tree)
        → Derives words (expression tree) fragments → expression_of words fragments ≡ Some tree }
    // No fragments stand for two expressions.
    ensures one { (words : Splitting) (fragments : List SeenFragment) (tree other : Tree)
        → Derives words (expression tree) fragments → Derives words (expression other) fragments
        → tree ≡ other }
    // The same of the arguments of a call.
    ensures reads_arguments { (fragments : List SeenFragment) (passed : List Argument)
        → passed_of fragments ≡ Some passed
        → Derives splittings.Nothing (arguments passed) fragments }
    ensures all_arguments { (fragments : List SeenFragment) (passed : List Argument)
        → Derives splittings.Nothing (arguments passed) fragments
        → passed_of fragments ≡ Some passed }
    ensures one_arguments { (fragments : List SeenFragment) (passed others : List Argument)
        → Derives splittings.Nothing (arguments passed) fragments
        → Derives splittings.Nothing (arguments others) fragments → passed ≡ others }
    // What a tree is written as stands for the tree, whatever words split there.
    ensures writes { (words others : Splitting) (fragments : List SeenFragment) (tree : Tree)
        → Derives words (expression tree) fragments
        → Derives others (expression tree) (written tree) }
    // What is written is read again.
    ensures again { (words others : Splitting) (fragments : List SeenFragment) (tree : Tree)
        → expression_of words fragments ≡ Some tree
        → expression_of others (written tree) ≡ Some tree }
    // Where the arguments of a call are one expression, a test of their fragments says so.
    ensures single { (inner : SeenFragments) (tree : Tree)
        → Derives splittings.Nothing (expression tree) (row inner) → is_single (row inner) ≡ true }
{}

/// What holds of the bodies that fragments stand for.
pub fn body_laws()
    // What is read is derived.
    ensures reads { (words : Splitting) (fragments : List SeenFragment) (trees : List ItemTree)
        → body_of_fragments words fragments ≡ Some trees → Derives words (a_body trees) fragments }
    // What is derived is read.
    ensures all { (words : Splitting) (fragments : List SeenFragment) (trees : List ItemTree)
        → Derives words (a_body trees) fragments → body_of_fragments words fragments ≡ Some trees }
    // No fragments stand for two bodies.
    ensures one { (words : Splitting) (fragments : List SeenFragment) (trees others : List ItemTree)
        → Derives words (a_body trees) fragments → Derives words (a_body others) fragments
        → trees ≡ others }
    // What a body is written as stands for it.
    ensures writes { (words : Splitting) (fragments : List SeenFragment) (trees : List ItemTree)
        → Derives words (a_body trees) fragments
        → Derives words (a_body trees) (written_body (body_of trees)) }
{}

/// What holds of the types and of what a binding binds.
pub fn type_laws()
    // What is read as a type is one, and what is a type is read as it.
    ensures reads { (fragments : List SeenFragment) (type : TypeTree)
        → type_items (items_of fragments) ≡ Some type → IsType (a_type type) fragments }
    ensures all { (fragments : List SeenFragment) (type : TypeTree) → IsType (a_type type) fragments
        → type_items (items_of fragments) ≡ Some type }
    // No fragments stand for two types.
    ensures one { (fragments : List SeenFragment) (type other : TypeTree)
        → IsType (a_type type) fragments → IsType (a_type other) fragments → type ≡ other }
    // What a type is written as stands for it.
    ensures writes { (fragments : List SeenFragment) (type : TypeTree)
        → IsType (a_type type) fragments → IsType (a_type type) (written_type type) }
    // The same of what a binding binds.
    ensures reads_targets { (fragments : List SeenFragment) (target : TargetTree)
        → target_items (items_of fragments) ≡ Some target → IsTarget target fragments }
    ensures all_targets { (fragments : List SeenFragment) (target : TargetTree)
        → IsTarget target fragments → target_items (items_of fragments) ≡ Some target }
    ensures one_target { (fragments : List SeenFragment) (target other : TargetTree)
        → IsTarget target fragments → IsTarget other fragments → target ≡ other }
    ensures writes_targets { (fragments : List SeenFragment) (target : TargetTree)
        → IsTarget target fragments → IsTarget target (written_target target) }
{}

/// What holds of the forms that fragments stand for.
pub fn form_laws()
    // What is read is a form.
    ensures reads { (fragments : List SeenFragment) (form : FormTree)
        → form_of fragments ≡ Some form → IsForm form fragments }
    // What is a form is read.
    ensures all { (fragments : List SeenFragment) (form : FormTree) → IsForm form fragments
        → form_of fragments ≡ Some form }
    // No fragments stand for two forms.
    ensures one { (fragments : List SeenFragment) (form other : FormTree) → IsForm form fragments
        → IsForm other fragments → form ≡ other }
    // What a form is written as stands for it.
    ensures writes { (fragments : List SeenFragment) (form : FormTree) → IsForm form fragments
        → IsForm form (written_form form) }
    // What is written is read again.
    ensures again { (fragments : List SeenFragment) (form : FormTree)
        → form_of fragments ≡ Some form → form_of (written_form form) ≡ Some form }
{}

/// What holds of what is told of the fragments of a form.
pub fn parsing_laws()
    // What is accepted is a form within the limit, and each form within the limit is accepted.
    ensures accepts { (fragments : List SeenFragment) (form : FormTree)
        → parsed fragments ≡ accepted form → IsForm form fragments
        × (form_depth form ≤ depth_limit) }
    ensures accepts_all { (fragments : List SeenFragment) (form : FormTree) → IsForm form fragments
        → form_depth form ≤ depth_limit → parsed fragments ≡ accepted form }
    // Too deep is what stands for a form that is deeper than the limit.
    ensures deep { (fragments : List SeenFragment) → parsed fragments ≡ too_deep → (form : FormTree)
        × IsForm form fragments × (depth_limit < form_depth form) }
    ensures all_deep { (fragments : List SeenFragment) (form : FormTree) → IsForm form fragments
        → depth_limit < form_depth form → parsed fragments ≡ too_deep }
    // No form is told exactly where there is none.
    ensures none { (fragments : List SeenFragment) → parsed fragments ≡ no_form → (form : FormTree)
        → IsForm form fragments → ⊥ }
    ensures all_none { (fragments : List SeenFragment)
        → ((form : FormTree) → IsForm form fragments → ⊥) → parsed fragments ≡ no_form }
    // What a form within the limit is written as is accepted again.
    ensures again { (fragments : List SeenFragment) (form : FormTree) → IsForm form fragments
        → form_depth form ≤ depth_limit → parsed (written_form form) ≡ accepted form }
{}

/// What holds of lists and vectors of literals.
pub fn constant_laws()
    // What is read inside of a list, and what follows its dot, is derived, and what is derived is
    // read.
    ensures reads_list { (inner : SeenFragments) (found : Inside) → list_in inner ≡ Some found
        → IsConstant (in_list found.items found.last) (row inner) }
    ensures all_lists { (inner : SeenFragments) (items : List Constant) (last : Option Constant)
        → IsConstant (in_list items last) (row inner) → list_in inner ≡ Some (inside items last) }
    // The same inside of a vector.
    ensures reads_vector { (inner : SeenFragments) (items : List Constant)
        → vector_in inner ≡ Some items → IsConstant (in_vector items) (row inner) }
    ensures all_vectors { (inner : SeenFragments) (items : List Constant)
        → IsConstant (in_vector items) (row inner) → vector_in inner ≡ Some items }
{}
