//! The bodies that fragments stand for.

ghost use Rattle.std.specs.Prelude.{◌≡◌, ℕ, max, IfOk, map, option_map};
ghost use Rattle.dy_tree.specs.Fragments.{seen_fragments};
ghost use Rattle.dy_rules.specs.Bodies as spec;
ghost use Rattle.dy_rules.specs.Depth as measure;
ghost use Rattle.dy_rules.specs.Fragments.{items_of};
ghost use Rattle.dy_rules.specs.Reading.{expression_items};
ghost use Rattle.dy_rules.specs.SeenForms.{seen_item, seen_method, seen_parameters, seen_tree};
ghost use Rattle.dy_rules.specs.SeenTypes.{seen_target, seen_type};
ghost use Rattle.dy_rules.specs.Trees as trees;
ghost use Rattle.dy_rules.specs.TypeReading.{target_items, type_items};
ghost use Rattle.dy_rules_depth.specs.Changes.{changed_item, changed_method};
ghost use Rattle.dy_rules_depth.specs.Capping.{capping};
ghost use Rattle.dy_read_arms.specs.BodyDepths.{BodyDepth, ItemDepth, MethodDepth};
ghost use Rattle.dy_read_arms.specs.BodyDepths.{MethodsDepth, TargetDepth};
ghost use Rattle.dy_read_outers.specs.Grown.{read_grown};
ghost use Rattle.dy_read_shapes.specs.ItemShapes.{let_to, let_read, handler_to, handler_read};
ghost use Rattle.dy_read_shapes.specs.ItemShapes.{methods_items};
ghost use Rattle.dy_read_parts.specs.Nesting.{nesting};
ghost use Rattle.dy_read_parts.specs.Pieces.{seen_slice, IsWithin, unless_empty};
ghost use Rattle.dy_read_arms.specs.ReadBodies.{read_item, read_items, read_method};
ghost use Rattle.dy_read_arms.specs.ReadBodies.{read_methods, read_target};
ghost use Rattle.dy_read_statements.specs.ReadMethods.{read_named, method_of_parts, NamedDepth};
ghost use Rattle.dy_read_types.specs.TypeCaps.{read_type};
ghost use Rattle.dy_read_types.specs.TypeFronts.{TypeDepth};

use crate::expressions::expression;
use crate::methods::named_method;
use dy_read_outers::grown::Grown;
use dy_read_parts::cutting::{behind_first, split_piece};
use dy_read_parts::depth::{deepen, deepest};
use dy_read_parts::separator::Separator;
use dy_read_parts::trim::without_end;
use dy_read_shapes::item_shape::{ItemShape, MethodGroup, item_shape, method_alone};
use dy_read_statements::method_read::NamedRead;
use dy_read_types::targets::target_items;
use dy_read_types::types::type_items;
use dy_tree::{
    Expression, Fragment, Item, LocalMethod, Parameters, Splitting, Target, Token, TypeForm,
};
use std::alloc::{AllocError, Global};

fn let_of(word: Token, target: Target, value: Expression) -> Item
    ensures { seen_item result ≡ trees.let_item word (seen_target target) (seen_tree value) }
{
    Item::Let {
        word,
        target,
        value,
    }
}

fn handler_of(word: Token, condition: TypeForm, handler: Expression) -> Item
    ensures { seen_item result ≡ trees.handler_item word (seen_type condition) (seen_tree handler) }
{
    Item::Handler {
        word,
        condition,
        handler,
    }
}

/// A `let` of a target, which is `inside` deep.
fn let_within(
    word: Token,
    target: Target,
    inside: usize,
    assigned: Grown,
    depth: &mut usize,
) -> Item
    requires { inside ≡ measure.target_depth (read_target target) }
    ensures read { read_item result
        ≡ trees.let_item word (read_target target) (read_grown assigned) }
    ensures depth { depth.new ≡ max depth.old (measure.item_depth (read_item result)) }
{
    let inside = deepest(inside, assigned.depth);
    deepen(depth, inside);
    let_of(word, target, Box::into_inner(assigned.tree))
}

fn let_with(
    word: Token,
    target: Target,
    inside: usize,
    assigned: Option<Grown>,
    depth: &mut usize,
) -> Option<Item>
    requires { inside ≡ measure.target_depth (read_target target) }
    ensures found { option_map read_item result
        ≡ let_to word (option_map read_grown assigned) (read_target target) }
    ensures depth { ItemDepth depth.old depth.new result }
{
    match assigned {
        Some(assigned) => Some(let_within(word, target, inside, assigned, depth)),
        None => None,
    }
}

/// A `let handler` of a condition, which is `inside` deep.
fn handler_within(
    word: Token,
    condition: TypeForm,
    inside: usize,
    handler: Grown,
    depth: &mut usize,
) -> Item
    requires { inside ≡ measure.type_depth (read_type condition) }
    ensures read { read_item result
        ≡ trees.handler_item word (read_type condition) (read_grown handler) }
    ensures depth { depth.new ≡ max depth.old (measure.item_depth (read_item result)) }
{
    let inside = deepest(inside, handler.depth);
    deepen(depth, inside);
    handler_of(word, condition, Box::into_inner(handler.tree))
}

fn handler_with(
    word: Token,
    condition: TypeForm,
    inside: usize,
    handler: Option<Grown>,
    depth: &mut usize,
) -> Option<Item>
    requires { inside ≡ measure.type_depth (read_type condition) }
    ensures found { option_map read_item result
        ≡ handler_to word (option_map read_grown handler) (read_type condition) }
    ensures depth { ItemDepth depth.old depth.new result }
{
    match handler {
        Some(handler) => Some(handler_within(word, condition, inside, handler, depth)),
        None => None,
    }
}

/// An expression as an item.
fn expression_item(found: Option<Grown>, depth: &mut usize) -> Option<Item>
    ensures found { option_map read_item result
        ≡ option_map trees.expression_item (option_map read_grown found) }
    ensures depth { ItemDepth depth.old depth.new result }
{
    match found {
        Some(grown) => {
            deepen(depth, grown.depth);
            Some(Item::Expression(Box::into_inner(grown.tree)))
        }
        None => None,
    }
}

/// A local method.
fn method_of(word: Token, name: Token, parameters: Parameters, body: Vec<Item>) -> LocalMethod
    ensures { seen_method result
        ≡ trees.local_method word name (seen_parameters parameters)
        (trees.body_of (map seen_item body.items)) }
{
    LocalMethod {
        word,
        name,
        parameters,
        body,
    }
}

/// Local methods as an item.
fn local_of(word: Token, methods: Vec<LocalMethod>) -> Item
    ensures { seen_item result
        ≡ trees.local_item word (trees.methods_of (map seen_method methods.items)) }
{
    Item::Local { word, methods }
}

/// A local method that was read behind its name.
fn named_of(word: Token, named: NamedRead) -> LocalMethod
    ensures { read_method result ≡ method_of_parts word (read_named named) }
{
    method_of(word, named.name, named.method.parameters, named.method.body)
}

fn named_with(word: &Token, named: Option<NamedRead>) -> Result<Option<LocalMethod>, AllocError>
    ensures { IfOk result (λ found. option_map read_method found
        ≡ option_map (method_of_parts word.now) (option_map read_named named)) }
{
    match named {
        Some(named) => Ok(Some(named_of(word.copy()?, named))),
        None => Ok(None),
    }
}

/// Local methods that were read, as an item.
fn local_within(word: &Token, methods: Vec<LocalMethod>) -> Result<Item, AllocError>
    ensures { IfOk result (λ made. read_item made ≡ spec.local_of word.now (read_methods methods)) }
{
    Ok(local_of(word.copy()?, methods))
}

fn local_with(word: &Token, methods: Option<Vec<LocalMethod>>) -> Result<Option<Item>, AllocError>
    ensures { IfOk result (λ found. option_map read_item found
        ≡ option_map (spec.local_of word.now) (option_map read_methods methods)) }
{
    match methods {
        Some(methods) => Ok(Some(local_within(word, methods)?)),
        None => Ok(None),
    }
}

/// What stands in front of the first separator, where there is any.
fn unless_empty(fragments: &[Fragment]) -> Option<&[Fragment]>
    ensures found { option_map seen_slice result ≡ unless_empty (seen_fragments fragments.now) }
    ensures nested { IsWithin (nesting (seen_fragments fragments.now)) result }
{
    match fragments.split_first() {
        Some(_) => Some(fragments),
        None => None,
    }
}

/// The `let` whose sides these are.
#[cycle(read)]
fn let_sides(
    alloc: Global,
    words: Splitting,
    word: &Token,
    before: &[Fragment],
    after: &[Fragment],
    depth: &mut usize,
) -> Result<Option<Item>, AllocError>
    ensures found { IfOk result
        (λ found. option_map read_item found
        ≡ option_map (changed_item capping)
        (let_read word.now (target_items (items_of (seen_fragments before.now)))
        (expression_items words (items_of (seen_fragments after.now))))) }
    ensures depth { IfOk result (λ found. ItemDepth depth.old depth.new found) }
{
    let mut inside = 0;
    match target_items(alloc, before, &mut inside)? {
        Some(target) => {
            let assigned = expression(alloc, words, after)?;
            Ok(let_with(word.copy()?, target, inside, assigned, depth))
        }
        None => Ok(None),
    }
}

/// The `let handler` whose sides these are.
#[cycle(read)]
fn handler_sides(
    alloc: Global,
    words: Splitting,
    word: &Token,
    before: &[Fragment],
    after: &[Fragment],
    depth: &mut usize,
) -> Result<Option<Item>, AllocError>
    ensures found { IfOk result
        (λ found. option_map read_item found
        ≡ option_map (changed_item capping)
        (handler_read word.now (type_items (items_of (seen_fragments before.now)))
        (expression_items words (items_of (seen_fragments after.now))))) }
    ensures depth { IfOk result (λ found. ItemDepth depth.old depth.new found) }
{
    let mut inside = 0;
    match type_items(alloc, before, &mut inside)? {
        Some(condition) => {
            let handler = expression(alloc, words, after)?;
            Ok(handler_with(word.copy()?, condition, inside, handler, depth))
        }
        None => Ok(None),
    }
}

/// The local method that fragments stand for.
#[cycle(read)]
fn local_method(
    alloc: Global,
    fragments: &[Fragment],
    depth: &mut usize,
) -> Result<Option<LocalMethod>, AllocError>
    ensures found { IfOk result
        (λ found. option_map read_method found
        ≡ option_map (changed_method capping)
        (spec.method_alone (items_of (seen_fragments fragments.now)))) }
    ensures depth { IfOk result (λ found. MethodDepth depth.old depth.new found) }
{
    match method_alone(fragments) {
        Some(group) => {
            let named = named_method(alloc, group.inner, depth)?;
            named_with(group.word, named)
        }
        None => Ok(None),
    }
}

/// Local methods with commas between them.
#[cycle(read)]
fn local_methods(
    alloc: Global,
    fragments: &[Fragment],
    depth: &mut usize,
) -> Result<Option<Vec<LocalMethod>>, AllocError>
    ensures found { IfOk result
        (λ found. option_map read_methods found
        ≡ option_map (map (changed_method capping))
        (methods_items (items_of (seen_fragments fragments.now)))) }
    ensures depth { IfOk result (λ found. MethodsDepth depth.old depth.new found) }
{
    let mut methods = Vec::new(alloc);
    let mut behind = Some(fragments);
    while let Some(list) = behind {
        let (piece, others) = split_piece(Separator::Comma, false, list);
        match local_method(alloc, piece, depth)? {
            Some(method) => methods.push(method)?,
            None => return Ok(None),
        }
        behind = behind_first(others);
    }
    Ok(Some(methods))
}

/// The `local` whose methods these are.
#[cycle(read)]
fn local(
    alloc: Global,
    word: &Token,
    fragments: &[Fragment],
    depth: &mut usize,
) -> Result<Option<Item>, AllocError>
    ensures found { IfOk result
        (λ found. option_map read_item found
        ≡ option_map (changed_item capping)
        (option_map (spec.local_of word.now)
        (methods_items (items_of (seen_fragments fragments.now))))) }
    ensures depth { IfOk result (λ found. ItemDepth depth.old depth.new found) }
{
    let methods = local_methods(alloc, fragments, depth)?;
    local_with(word, methods)
}

/// The item of a body that fragments stand for.
#[cycle(read)]
pub fn item(
    alloc: Global,
    words: Splitting,
    fragments: &[Fragment],
    depth: &mut usize,
) -> Result<Option<Item>, AllocError>
    ensures found { IfOk result
        (λ found. option_map read_item found
        ≡ option_map (changed_item capping)
        (spec.item_items words (items_of (seen_fragments fragments.now)))) }
    ensures depth { IfOk result (λ found. ItemDepth depth.old depth.new found) }
{
    match item_shape(words, fragments) {
        ItemShape::Nothing => Ok(None),
        ItemShape::Let {
            word,
            target,
            assigned,
        } => let_sides(alloc, words, word, target, assigned, depth),
        ItemShape::Handler {
            word,
            condition,
            handler,
        } => handler_sides(alloc, words, word, condition, handler, depth),
        ItemShape::Local { word, methods } => local(alloc, word, methods, depth),
        ItemShape::Expression(all) => Ok(expression_item(expression(alloc, words, all)?, depth)),
    }
}

/// The items of the body that fragments stand for.
#[cycle(read)]
pub fn body(
    alloc: Global,
    words: Splitting,
    fragments: &[Fragment],
    depth: &mut usize,
) -> Result<Option<Vec<Item>>, AllocError>
    ensures found { IfOk result
        (λ found. option_map read_items found
        ≡ option_map (map (changed_item capping))
        (spec.body_items words (items_of (seen_fragments fragments.now)))) }
    ensures depth { IfOk result (λ found. BodyDepth depth.old depth.new found) }
{
    let mut items = Vec::new(alloc);
    let mut behind = unless_empty(without_end(fragments));
    while let Some(list) = behind {
        let (piece, others) = split_piece(Separator::Semicolon, false, list);
        match item(alloc, words, piece, depth)? {
            Some(read) => items.push(read)?,
            None => return Ok(None),
        }
        behind = behind_first(others);
    }
    Ok(Some(items))
}
