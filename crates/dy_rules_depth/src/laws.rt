//! Laws of trees that are too deep.

ghost use Rattle.std.specs.Prelude.{◌≡◌, ◌≤◌, nat_lt, List, map, Option, Some, option_map};
ghost use Rattle.dy_tree.specs.declared.token.Token.{Token};
ghost use Rattle.dy_tree.specs.Fragments.{SeenFragment, SeenFragments};
ghost use Rattle.dy_tree.specs.declared.splitters.Splitting.{Splitting};
ghost use Rattle.dy_rules.specs.Cutting.{Item};
ghost use Rattle.dy_rules.specs.Reading.{expression_items, passed_items};
ghost use Rattle.dy_rules.specs.TypeReading.{type_items, target_items};
ghost use Rattle.dy_rules.specs.Bodies.{body_items};
ghost use Rattle.dy_rules.specs.Fragments.{found_of};
ghost use Rattle.dy_rules.specs.Forms.{FormTree};
ghost use Rattle.dy_rules.specs.FormReading.{FormFront, form_front};
ghost use Rattle.dy_rules.specs.Depth.{depth_limit};
ghost use Rattle.dy_rules.specs.FormDepth.{form_depth};
ghost use Rattle.dy_rules.specs.Parsing.{limited, parsed_if, parsed};
ghost use Rattle.dy_rules_depth.specs.Changes.{changed_target, changed_item, changed_argument};
ghost use Rattle.dy_rules_depth.specs.Changes.{changed_form};
ghost use Rattle.dy_rules_depth.specs.ReaderChanges.{changed_found, changed_items};
ghost use Rattle.dy_rules_depth.specs.Capping.{capped, capped_type, capping, filling};
ghost use Rattle.dy_rules_depth.specs.FormItems.{items_at, form_items};

/// What is read of items is the same to the limit, whatever stands in the place of trees that are
/// too deep.
pub fn reader_laws()
    ensures expressions { (words : Splitting) (items : List Item)
        → option_map capped (expression_items words (changed_items capping items))
        ≡ option_map capped (expression_items words items) }
    ensures arguments { (items : List Item)
        → option_map (map (changed_argument capping)) (passed_items (changed_items capping items))
        ≡ option_map (map (changed_argument capping)) (passed_items items) }
    ensures types { (items : List Item)
        → option_map capped_type (type_items (changed_items capping items))
        ≡ option_map capped_type (type_items items) }
    ensures targets { (items : List Item)
        → option_map (changed_target capping) (target_items (changed_items capping items))
        ≡ option_map (changed_target capping) (target_items items) }
    ensures bodies { (words : Splitting) (items : List Item)
        → option_map (map (changed_item capping)) (body_items words (changed_items capping items))
        ≡ option_map (map (changed_item capping)) (body_items words items) }
    // All that is read inside of a group.
    ensures groups { (opener : Token) (inner : SeenFragments) (closer : Token) (items : List Item)
        → changed_found capping (found_of opener inner closer (changed_items capping items))
        ≡ changed_found capping (found_of opener inner closer items) }
    ensures forms { (front : FormFront) (items : List Item)
        → option_map (changed_form capping) (form_items front (changed_items capping items))
        ≡ option_map (changed_form capping) (form_items front items) }
    // What is told of fragments is what is told of any items that are the same to the limit.
    ensures told { (fragments : List SeenFragment) (items : List Item)
        → changed_items capping items
        ≡ changed_items capping (items_at (form_front fragments) fragments)
        → parsed fragments ≡ parsed_if (form_items (form_front fragments) items) }
{}

/// What holds of a form in which one tree stands in the place of all that are too deep.
pub fn form_depth_laws()
    // A form within the limit is kept.
    ensures kept { (form : FormTree) → form_depth form ≤ depth_limit
        → changed_form capping form ≡ form }
    // Another is not within the limit either.
    ensures deep { (form : FormTree)
        → nat_lt depth_limit (form_depth (changed_form capping form))
        ≡ nat_lt depth_limit (form_depth form) }
    // A form with leaves that stand for trees that are too deep tells of the form what is to be
    // told.
    ensures filled { (form other : FormTree)
        → changed_form capping (changed_form filling form) ≡ changed_form capping other
        → limited (nat_lt depth_limit (form_depth (changed_form filling form))) form
        ≡ parsed_if (Some other) }
{}
