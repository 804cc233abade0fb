//! Slots of classes (DRM 5, "Slots").

ghost use Rattle.std.specs.Prelude.{◌≡◌, map, option_map, IfOk};
ghost use Rattle.dy_rules.specs.SeenForms.{seen_option, seen_initial, seen_slot as slot_tree};
ghost use Rattle.dy_term.specs.Rows.{seen_slot, seen_init};
ghost use Rattle.dy_surface.specs.Forms.{kind_of, written_setter, setter_of, keyword_of};
ghost use Rattle.dy_surface.specs.Forms.{is_required, written_init, init_of, slot_of};

use dy_desugar::term_of;
use dy_drafts::{declared_or, has, setter_at};
use dy_term::{DraftInit, DraftSlot, DraftType, SlotKind};
use dy_tree::{Expression, Slot, SlotOption, Token};
use std::alloc::{AllocError, Global};

/// Where a slot's value stands.
fn kind_of(words: &[Token]) -> SlotKind
    ensures { result ≡ kind_of words.now }
{
    if has(b"class", words) {
        SlotKind::Shared
    } else if has(b"each-subclass", words) {
        SlotKind::EachSubclass
    } else if has(b"virtual", words) {
        SlotKind::Virtual
    } else {
        SlotKind::Instance
    }
}

/// The name behind `setter:`, or `#f`.
fn written_setter(options: &[SlotOption]) -> Option<&Token>
    ensures { option_map (λ token. token.now) result
        ≡ written_setter (map seen_option options.now) }
{
    for option in options {
        if let SlotOption::Setter(token) = option {
            return Some(token);
        }
    }
    None
}

/// The name of a slot's setter, if it has one.
fn setter_of(alloc: Global, slot: &Slot) -> Result<Option<Token>, AllocError>
    ensures { IfOk result (λ setter. setter
        ≡ setter_of slot.now.adjectives.items slot.now.name
        (map seen_option slot.now.options.items)) }
{
    if has(b"constant", &slot.adjectives) {
        return Ok(None);
    }
    match written_setter(&slot.options) {
        None => Ok(Some(setter_at(alloc, &slot.name)?)),
        Some(token) => {
            if token.is_spelled(b"#f") {
                Ok(None)
            } else {
                Ok(Some(token.copy()?))
            }
        }
    }
}

/// The init keyword, and whether it is required.
fn keyword_of(options: &[SlotOption]) -> Option<(&Token, bool)>
    ensures { option_map (λ found. (found.0.now, found.1)) result
        ≡ keyword_of (map seen_option options.now) }
{
    for option in options {
        match option {
            SlotOption::InitKeyword(token) => return Some((token, false)),
            SlotOption::RequiredInitKeyword(token) => return Some((token, true)),
            _ => {}
        }
    }
    None
}

/// The init keyword, if there is one.
fn init_keyword(options: &[SlotOption]) -> Result<Option<Token>, AllocError>
    ensures { IfOk result (λ keyword. keyword
        ≡ option_map (λ found. found.0) (keyword_of (map seen_option options.now))) }
{
    match keyword_of(options) {
        None => Ok(None),
        Some((token, _)) => Ok(Some(token.copy()?)),
    }
}

/// Whether the init keyword is required.
fn is_required(options: &[SlotOption]) -> bool
    ensures { result ≡ is_required (keyword_of (map seen_option options.now)) }
{
    match keyword_of(options) {
        None => false,
        Some((_, required)) => required,
    }
}

/// What an option fills a slot with.
fn written_init(alloc: Global, options: &[SlotOption]) -> Result<Option<DraftInit>, AllocError>
    ensures { IfOk result (λ init. option_map seen_init init
        ≡ written_init (map seen_option options.now)) }
{
    for option in options {
        match option {
            SlotOption::InitValue(value) => {
                return Ok(Some(DraftInit::Each(term_of(alloc, value)?)));
            }
            SlotOption::InitFunction(function) => {
                return Ok(Some(DraftInit::Calling(term_of(alloc, function)?)));
            }
            _ => {}
        }
    }
    Ok(None)
}

/// What a slot is filled with, if it is.
fn init_of(
    alloc: Global,
    value: &Option<Expression>,
    options: &[SlotOption],
) -> Result<Option<DraftInit>, AllocError>
    ensures { IfOk result (λ init. option_map seen_init init
        ≡ init_of (seen_initial value.now) (map seen_option options.now)) }
{
    match value {
        Some(value) => Ok(Some(DraftInit::Each(term_of(alloc, value)?))),
        None => written_init(alloc, options),
    }
}

/// A slot.
fn slot_of(alloc: Global, slot: &Slot) -> Result<DraftSlot, AllocError>
    ensures { IfOk result (λ found. seen_slot found ≡ slot_of (slot_tree slot.now)) }
{
    let getter = slot.name.copy()?;
    let setter = setter_of(alloc, slot)?;
    let slot_type = declared_or(alloc, DraftType::Object, &slot.declared)?;
    let keyword = init_keyword(&slot.options)?;
    let init = init_of(alloc, &slot.value, &slot.options)?;
    Ok(DraftSlot {
        getter,
        setter,
        kind: kind_of(&slot.adjectives),
        slot_type,
        keyword,
        required: is_required(&slot.options),
        init,
    })
}

/// The slots of a class.
pub(crate) fn slots_of(alloc: Global, slots: &Vec<Slot>) -> Result<Vec<DraftSlot>, AllocError>
    ensures { IfOk result (λ found. map seen_slot found.items
        ≡ map slot_of (map slot_tree slots.now.items)) }
{
    let mut found = Vec::new(alloc);
    for slot in slots {
        found.push(slot_of(alloc, slot)?)?;
    }
    Ok(found)
}
