//! The types that fragments stand for.

ghost use Rattle.std.specs.Prelude.{◌≡◌, false, max, IfOk, option_map, option_and_then, map};
ghost use Rattle.dy_rules.specs.SeenTypes.{seen_type};
ghost use Rattle.dy_tree.specs.Fragments.{seen_fragments};
ghost use Rattle.dy_rules.specs.Types as typing;
ghost use Rattle.dy_rules.specs.TypeReading as reading;
ghost use Rattle.dy_rules.specs.Fragments.{items_of};
ghost use Rattle.dy_rules.specs.Depth.{types_depth, type_depth};
ghost use Rattle.dy_rules_depth.specs.Capping.{is_absent, capped_type, deep_type};
ghost use Rattle.dy_read_types.specs.TypeCaps.{read_type, read_types};
ghost use Rattle.dy_read_types.specs.TypeFronts.{seen_front, capped_front, capped_union};
ghost use Rattle.dy_read_types.specs.TypeFronts.{capped_types, seen_types, FrontDepth, TypeDepth};
ghost use Rattle.dy_read_types.specs.TypeFronts.{TypesDepth};
ghost use Rattle.dy_read_types.specs.TypeShapes as spec;

use crate::limits::{Limits, limits_in};
use crate::single::single_in;
use crate::type_shape::{TypeShape, type_shape};
use dy_read_parts::cutting::{behind_first, piece_len};
use dy_read_parts::depth::{DEPTH_LIMIT, deepen};
use dy_read_parts::separator::Separator;
use dy_tree::{Fragment, Token, TokenKind, TypeForm, TypeWord};
use std::alloc::{AllocError, Global};

/// A type at the front of fragments, and what stands behind it.
#[derive(Drop)]
pub struct TypeFront<'a> {
    pub declared: TypeForm,
    pub rest: &'a [Fragment],
}

/// A type that stands in the place of one that is too deep.
fn absent_type(word: &Token) -> Result<TypeForm, AllocError>
    ensures { IfOk result (λ made. read_type made ≡ deep_type) }
{
    let mut word = word.copy()?;
    word.kind = TokenKind::PatternVar;
    Ok(TypeForm::Name(word))
}

/// A union of types.
fn union_type(word: Token, types: Vec<TypeForm>) -> TypeForm
    ensures { seen_type result ≡ reading.union_of word (map seen_type types.items) }
{
    TypeForm::Union { word, types }
}

/// A union of types that is within the limit, or what stands for one that is not.
fn union_within(
    word: &Token,
    types: Vec<TypeForm>,
    inside: usize,
    depth: &mut usize,
) -> Result<TypeForm, AllocError>
    requires { inside ≡ types_depth (typing.types_of (read_types types.items)) }
    ensures made { IfOk result
        (λ made. read_type made ≡ capped_type
        (reading.union_of word.now (read_types types.items))) }
    ensures depth { IfOk result (λ made. depth.new ≡ max depth.old (type_depth (read_type made))) }
{
    if inside < DEPTH_LIMIT {
        deepen(depth, inside + 1);
        Ok(union_type(word.copy()?, types))
    } else {
        deepen(depth, DEPTH_LIMIT + 1);
        absent_type(word)
    }
}

/// A union of types, of which the deepest is `inside` deep.
#[tactic(auto, using(crate::proofs::TypeCaps::union_through))]
fn union(
    word: &Token,
    types: Option<Vec<TypeForm>>,
    inside: usize,
    depth: &mut usize,
) -> Result<Option<TypeForm>, AllocError>
    requires { TypesDepth 0 inside types }
    ensures found { IfOk result
        (λ found. option_map read_type found
        ≡ option_map (capped_union word.now) (option_map seen_types types)) }
    ensures depth { IfOk result (λ found. TypeDepth depth.old depth.new found) }
{
    match types {
        Some(types) => Ok(Some(union_within(word, types, inside, depth)?)),
        None => Ok(None),
    }
}

/// A name as a type.
#[tactic(auto, using(dy_rules_depth::proofs::Nodes::capped_named_type))]
fn named<'a>(
    word: &Token,
    rest: &'a [Fragment],
    depth: &mut usize,
) -> Result<TypeFront<'a>, AllocError>
    requires { is_absent word.now ≡ false }
    ensures front { IfOk result
        (λ front. seen_front front
        ≡ capped_front (reading.in_front (items_of (seen_fragments rest.now))
        (typing.named_type word.now))) }
    ensures depth { IfOk result
        (λ front. depth.new ≡ max depth.old (type_depth (read_type front.declared))) }
{
    deepen(depth, 1);
    Ok(TypeFront {
        declared: TypeForm::Name(word.copy()?),
        rest,
    })
}

/// A singleton type.
#[tactic(auto, using(crate::proofs::TypeCaps::singleton_kept))]
fn singleton(
    word: &Token,
    inner: &[Fragment],
    depth: &mut usize,
) -> Result<Option<TypeForm>, AllocError>
    ensures found { IfOk result
        (λ found. option_map read_type found
        ≡ option_map capped_type (option_map (typing.singleton_type word.now)
        (reading.single_in (seen_fragments inner.now)))) }
    ensures depth { IfOk result (λ found. TypeDepth depth.old depth.new found) }
{
    match single_in(inner)? {
        Some(single) => {
            deepen(depth, 1);
            Ok(Some(TypeForm::Singleton {
                word: word.copy()?,
                single,
            }))
        }
        None => Ok(None),
    }
}

/// A limited type.
#[tactic(auto, using(crate::proofs::TypeCaps::limited_kept))]
fn limited(
    alloc: Global,
    word: &Token,
    inner: &[Fragment],
    depth: &mut usize,
) -> Result<Option<TypeForm>, AllocError>
    ensures found { IfOk result
        (λ found. option_map read_type found
        ≡ option_map capped_type (option_map (reading.limited_of word.now)
        (reading.limits_items (items_of (seen_fragments inner.now))))) }
    ensures depth { IfOk result (λ found. TypeDepth depth.old depth.new found) }
{
    match limits_in(alloc, inner)? {
        Some(Limits { class, bounds }) => {
            deepen(depth, 1);
            Ok(Some(TypeForm::Limited {
                word: word.copy()?,
                class,
                bounds,
            }))
        }
        None => Ok(None),
    }
}

/// A type that was read, with what stands behind it.
fn in_front<'a>(declared: Option<TypeForm>, rest: &'a [Fragment]) -> Option<TypeFront<'a>>
    ensures { option_map seen_front result
        ≡ option_map (reading.in_front (items_of (seen_fragments rest.now)))
        (option_map read_type declared) }
{
    match declared {
        Some(declared) => Some(TypeFront { declared, rest }),
        None => None,
    }
}

/// A type that nothing stands behind.
fn whole(front: Option<TypeFront>) -> Option<TypeForm>
    ensures { option_map read_type result
        ≡ option_and_then reading.whole_type (option_map seen_front front.entry) }
{
    match front {
        Some(front) => {
            if front.rest.is_empty() {
                Some(front.declared)
            } else {
                None
            }
        }
        None => None,
    }
}

/// A type with brackets behind its word.
#[cycle(types)]
fn form_type(
    alloc: Global,
    form: TypeWord,
    word: &Token,
    inner: &[Fragment],
    depth: &mut usize,
) -> Result<Option<TypeForm>, AllocError>
    ensures found { IfOk result
        (λ found. option_map read_type found
        ≡ option_map capped_type (spec.form_read form word.now (seen_fragments inner.now))) }
    ensures depth { IfOk result (λ found. TypeDepth depth.old depth.new found) }
{
    match form {
        TypeWord::Singleton => singleton(word, inner, depth),
        TypeWord::Union => {
            let mut inside = 0;
            let types = types_items(alloc, inner, &mut inside)?;
            union(word, types, inside, depth)
        }
        TypeWord::Limited => limited(alloc, word, inner, depth),
        TypeWord::Absent => Ok(None),
    }
}

/// The type at the front of fragments, and what stands behind it.
#[cycle(types)]
#[tactic(auto, using(crate::proofs::TypeShapes::shape_reads))]
pub fn type_front<'a>(
    alloc: Global,
    fragments: &'a [Fragment],
    depth: &mut usize,
) -> Result<Option<TypeFront<'a>>, AllocError>
    ensures front { IfOk result
        (λ found. option_map seen_front found
        ≡ option_map capped_front (reading.type_front (items_of (seen_fragments fragments.now)))) }
    ensures depth { IfOk result (λ found. FrontDepth depth.old depth.new found) }
{
    match type_shape(fragments) {
        TypeShape::Nothing => Ok(None),
        TypeShape::Name { word, rest } => Ok(Some(named(word, rest, depth)?)),
        TypeShape::Form {
            form,
            word,
            inner,
            rest,
        } => Ok(in_front(form_type(alloc, form, word, inner, depth)?, rest)),
    }
}

/// The type that fragments stand for.
#[cycle(types)]
pub fn type_items(
    alloc: Global,
    fragments: &[Fragment],
    depth: &mut usize,
) -> Result<Option<TypeForm>, AllocError>
    ensures found { IfOk result
        (λ found. option_map read_type found
        ≡ option_map capped_type (reading.type_items (items_of (seen_fragments fragments.now)))) }
    ensures depth { IfOk result (λ found. TypeDepth depth.old depth.new found) }
{
    Ok(whole(type_front(alloc, fragments, depth)?))
}

/// Types with commas between them.
#[cycle(types)]
pub fn types_items(
    alloc: Global,
    fragments: &[Fragment],
    depth: &mut usize,
) -> Result<Option<Vec<TypeForm>>, AllocError>
    ensures found { IfOk result
        (λ found. option_map seen_types found
        ≡ option_map capped_types (reading.types_items (items_of (seen_fragments fragments.now)))) }
    ensures depth { IfOk result (λ found. TypesDepth depth.old depth.new found) }
{
    let mut types = Vec::new(alloc);
    let mut behind = Some(fragments);
    while let Some(list) = behind {
        let (piece, others) = list.split_at(piece_len(Separator::Comma, false, list));
        match type_items(alloc, piece, depth)? {
            Some(declared) => types.push(declared)?,
            None => return Ok(None),
        }
        behind = behind_first(others);
    }
    Ok(Some(types))
}
