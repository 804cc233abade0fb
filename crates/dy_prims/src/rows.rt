//! The rows of the built-in libraries.

ghost use Rattle.std.specs.Prelude.{◌≡◌, ◌++◌, ◌∷◌, [], IfOk, OnOk, map as list_map};
ghost use Rattle.dy_base.specs.Folding.{folded};
ghost use Rattle.dy_types.specs.Classes.{built_in};
ghost use Rattle.dy_prims.specs.Rows as rows;

use dy_base::{ClassId, ClassOrder, GenericId, Items, Ref, fold};
use dy_term::{
    ClassRow, DomainRow, DyType, GenericRow, LibraryRow, Member, MethodCode, MethodRow, Params,
    Results, VariableRow,
};
use dy_values::built_in;
use std::alloc::{AllocError, Global};

fn class_order(alloc: Global, rows: &[u32]) -> Result<ClassOrder, AllocError>
    ensures { IfOk result (λ order. order ≡ list_map built_in rows.now) }
{
    let mut ids = Vec::new(alloc);
    for row in rows {
        ids.push(built_in(*row))?;
    }
    ClassOrder::from_vec(alloc, ids)
}

/// The direct superclass in a class precedence list, which is the second class.
fn supers(alloc: Global, order: &[u32]) -> Result<Items<ClassId>, AllocError>
    ensures { IfOk result (λ ids. ids ≡ list_map built_in (rows.above order.now)) }
{
    let mut ids = Items::new(alloc);
    match order {
        [_, superclass, ..] => ids.push(built_in(*superclass))?,
        _ => {}
    }
    Ok(ids)
}

/// A class by its class precedence list.
fn add_class(
    alloc: Global,
    classes: &mut Items<ClassRow>,
    name: &[u8],
    order: &[u32],
    is_open: bool,
    is_abstract: bool,
) -> Result<(), AllocError>
    ensures { OnOk result (classes.new
        ≡ classes.old ++ rows.class_row (folded name.now) order.now is_open is_abstract ∷ []) }
{
    let supers = supers(alloc, order)?;
    let order = class_order(alloc, order)?;
    classes.push(ClassRow {
        name: fold(alloc, name)?,
        supers,
        order,
        is_open,
        is_abstract,
        is_primary: false,
        slots: Items::new(alloc),
    })?;
    Ok(())
}

fn add_open(
    alloc: Global,
    classes: &mut Items<ClassRow>,
    name: &[u8],
    order: &[u32],
) -> Result<(), AllocError>
    ensures { OnOk result (classes.new
        ≡ classes.old ++ rows.open_abstract (folded name.now) order.now ∷ []) }
{
    add_class(alloc, classes, name, order, true, true)
}

fn add_abstract(
    alloc: Global,
    classes: &mut Items<ClassRow>,
    name: &[u8],
    order: &[u32],
) -> Result<(), AllocError>
    ensures { OnOk result (classes.new
        ≡ classes.old ++ rows.sealed_abstract (folded name.now) order.now ∷ []) }
{
    add_class(alloc, classes, name, order, false, true)
}

fn add_sealed(
    alloc: Global,
    classes: &mut Items<ClassRow>,
    name: &[u8],
    order: &[u32],
) -> Result<(), AllocError>
    ensures { OnOk result (classes.new
        ≡ classes.old ++ rows.sealed (folded name.now) order.now ∷ []) }
{
    add_class(alloc, classes, name, order, false, false)
}

/// The class of all objects, and classes of single values and numbers.
fn value_classes(alloc: Global) -> Result<Items<ClassRow>, AllocError>
    ensures { IfOk result (λ classes. classes ≡ rows.value_classes) }
{
    let mut classes = Items::new(alloc);
    add_open(alloc, &mut classes, b"<object>", &[0])?;
    add_sealed(alloc, &mut classes, b"<boolean>", &[1, 0])?;
    add_sealed(alloc, &mut classes, b"<character>", &[2, 0])?;
    add_sealed(alloc, &mut classes, b"<symbol>", &[3, 0])?;
    add_abstract(alloc, &mut classes, b"<number>", &[4, 0])?;
    Ok(classes)
}

/// The classes of collections, functions, types, conditions and integers.
fn root_classes(alloc: Global) -> Result<Items<ClassRow>, AllocError>
    ensures { IfOk result (λ classes. classes ≡ rows.root_classes) }
{
    let mut classes = Items::new(alloc);
    add_open(alloc, &mut classes, b"<collection>", &[5, 0])?;
    add_abstract(alloc, &mut classes, b"<function>", &[6, 0])?;
    add_sealed(alloc, &mut classes, b"<type>", &[7, 0])?;
    add_open(alloc, &mut classes, b"<condition>", &[8, 0])?;
    add_sealed(alloc, &mut classes, b"<integer>", &[9, 4, 0])?;
    Ok(classes)
}

/// The class of sequences, and those directly below it.
fn sequence_classes(alloc: Global) -> Result<Items<ClassRow>, AllocError>
    ensures { IfOk result (λ classes. classes ≡ rows.sequence_classes) }
{
    let mut classes = Items::new(alloc);
    add_open(alloc, &mut classes, b"<sequence>", &[10, 5, 0])?;
    add_abstract(alloc, &mut classes, b"<list>", &[11, 10, 5, 0])?;
    add_abstract(alloc, &mut classes, b"<vector>", &[12, 10, 5, 0])?;
    add_abstract(alloc, &mut classes, b"<string>", &[13, 10, 5, 0])?;
    add_sealed(alloc, &mut classes, b"<range>", &[14, 10, 5, 0])?;
    Ok(classes)
}

/// The classes below those of lists, vectors and strings.
fn concrete_sequences(alloc: Global) -> Result<Items<ClassRow>, AllocError>
    ensures { IfOk result (λ classes. classes ≡ rows.concrete_sequences) }
{
    let mut classes = Items::new(alloc);
    add_sealed(alloc, &mut classes, b"<pair>", &[15, 11, 10, 5, 0])?;
    add_sealed(alloc, &mut classes, b"<empty-list>", &[16, 11, 10, 5, 0])?;
    add_sealed(
        alloc,
        &mut classes,
        b"<simple-object-vector>",
        &[17, 12, 10, 5, 0],
    )?;
    add_sealed(
        alloc,
        &mut classes,
        b"<stretchy-vector>",
        &[18, 12, 10, 5, 0],
    )?;
    add_sealed(alloc, &mut classes, b"<byte-string>", &[19, 13, 10, 5, 0])?;
    Ok(classes)
}

/// The classes of tables, functions and classes.
fn other_classes(alloc: Global) -> Result<Items<ClassRow>, AllocError>
    ensures { IfOk result (λ classes. classes ≡ rows.other_classes) }
{
    let mut classes = Items::new(alloc);
    add_abstract(alloc, &mut classes, b"<table>", &[20, 5, 0])?;
    add_sealed(alloc, &mut classes, b"<object-table>", &[21, 20, 5, 0])?;
    add_sealed(alloc, &mut classes, b"<generic-function>", &[22, 6, 0])?;
    add_sealed(alloc, &mut classes, b"<method>", &[23, 6, 0])?;
    add_sealed(alloc, &mut classes, b"<class>", &[24, 7, 0])?;
    Ok(classes)
}

/// The open classes of conditions.
fn condition_classes(alloc: Global) -> Result<Items<ClassRow>, AllocError>
    ensures { IfOk result (λ classes. classes ≡ rows.condition_classes) }
{
    let mut classes = Items::new(alloc);
    add_open(alloc, &mut classes, b"<serious-condition>", &[25, 8, 0])?;
    add_open(alloc, &mut classes, b"<warning>", &[26, 8, 0])?;
    add_open(alloc, &mut classes, b"<restart>", &[27, 8, 0])?;
    add_open(alloc, &mut classes, b"<error>", &[28, 25, 8, 0])?;
    Ok(classes)
}

/// The classes of conditions that can be made.
fn concrete_conditions(alloc: Global) -> Result<Items<ClassRow>, AllocError>
    ensures { IfOk result (λ classes. classes ≡ rows.concrete_conditions) }
{
    let mut classes = Items::new(alloc);
    add_sealed(alloc, &mut classes, b"<simple-error>", &[29, 28, 25, 8, 0])?;
    add_sealed(alloc, &mut classes, b"<type-error>", &[30, 28, 25, 8, 0])?;
    add_sealed(alloc, &mut classes, b"<simple-warning>", &[31, 26, 8, 0])?;
    add_sealed(alloc, &mut classes, b"<simple-restart>", &[32, 27, 8, 0])?;
    Ok(classes)
}

/// The rows of two lists together.
fn joined(first: Items<ClassRow>, others: Items<ClassRow>) -> Result<Items<ClassRow>, AllocError>
    ensures { IfOk result (λ classes. classes ≡ first ++ others) }
{
    let mut classes = first.into_vec();
    let mut behind = others.into_vec();
    classes.append(&mut behind)?;
    Ok(Items::from_vec(classes))
}

fn first_classes(alloc: Global) -> Result<Items<ClassRow>, AllocError>
    ensures { IfOk result (λ classes. classes ≡ rows.first_classes) }
{
    let classes = joined(value_classes(alloc)?, root_classes(alloc)?)?;
    let classes = joined(classes, sequence_classes(alloc)?)?;
    joined(classes, concrete_sequences(alloc)?)
}

fn classes(alloc: Global) -> Result<Items<ClassRow>, AllocError>
    ensures { IfOk result (λ classes. classes ≡ rows.classes) }
{
    let classes = joined(first_classes(alloc)?, other_classes(alloc)?)?;
    let classes = joined(classes, condition_classes(alloc)?)?;
    joined(classes, concrete_conditions(alloc)?)
}

fn type_row(alloc: Global, class: u32) -> Result<DyType, AllocError>
    ensures { IfOk result (λ row. row ≡ rows.type_row class) }
{
    let mut members = Items::new(alloc);
    members.push(Member::Class(built_in(class)))?;
    Ok(DyType { members })
}

fn types(alloc: Global, classes: &[u32]) -> Result<Items<DyType>, AllocError>
    ensures { IfOk result (λ types. types ≡ list_map rows.type_row classes.now) }
{
    let mut types = Items::new(alloc);
    for class in classes {
        types.push(type_row(alloc, *class)?)?;
    }
    Ok(types)
}

fn params(alloc: Global, classes: &[u32]) -> Result<Params, AllocError>
    ensures { IfOk result (λ params. params ≡ rows.params_row classes.now) }
{
    Ok(Params {
        required: types(alloc, classes)?,
        rest: false,
        keys: None,
        all_keys: false,
    })
}

fn generic_id(row: u32) -> GenericId
    ensures { result ≡ rows.generic_id row }
{
    GenericId(Ref { library: 0, row })
}

fn add_generic(
    alloc: Global,
    generics: &mut Items<GenericRow>,
    name: &[u8],
    classes: &[u32],
) -> Result<(), AllocError>
    ensures { OnOk result (generics.new
        ≡ generics.old ++ rows.generic_row (folded name.now) classes.now ∷ []) }
{
    let results = Results {
        required: Items::new(alloc),
        rest: Some(type_row(alloc, 0)?),
    };
    generics.push(GenericRow {
        name: fold(alloc, name)?,
        is_open: true,
        params: params(alloc, classes)?,
        results,
    })?;
    Ok(())
}

fn generics(alloc: Global) -> Result<Items<GenericRow>, AllocError>
    ensures { IfOk result (λ generics. generics ≡ rows.generics) }
{
    let mut generics = Items::new(alloc);
    add_generic(alloc, &mut generics, b"+", &[0, 0])?;
    add_generic(alloc, &mut generics, b"-", &[0, 0])?;
    add_generic(alloc, &mut generics, b"*", &[0, 0])?;
    add_generic(alloc, &mut generics, b"negative", &[0])?;
    add_generic(alloc, &mut generics, b"<", &[0, 0])?;
    Ok(generics)
}

fn add_method(
    alloc: Global,
    methods: &mut Items<MethodRow>,
    generic: u32,
    classes: &[u32],
    given: u32,
    operation: u16,
) -> Result<(), AllocError>
    ensures { OnOk result (methods.new
        ≡ methods.old ++ rows.method_row generic classes.now given operation ∷ []) }
{
    let mut required = Items::new(alloc);
    required.push(type_row(alloc, given)?)?;
    methods.push(MethodRow {
        generic: generic_id(generic),
        params: params(alloc, classes)?,
        results: Results {
            required,
            rest: None,
        },
        code: MethodCode::Builtin(operation),
    })?;
    Ok(())
}

fn methods(alloc: Global) -> Result<Items<MethodRow>, AllocError>
    ensures { IfOk result (λ methods. methods ≡ rows.methods) }
{
    let mut methods = Items::new(alloc);
    add_method(alloc, &mut methods, 0, &[9, 9], 9, 0)?;
    add_method(alloc, &mut methods, 1, &[9, 9], 9, 1)?;
    add_method(alloc, &mut methods, 2, &[9, 9], 9, 2)?;
    add_method(alloc, &mut methods, 3, &[9], 9, 3)?;
    add_method(alloc, &mut methods, 4, &[9, 9], 1, 4)?;
    add_method(alloc, &mut methods, 4, &[2, 2], 1, 5)?;
    Ok(methods)
}

fn add_domain(
    alloc: Global,
    domains: &mut Items<DomainRow>,
    generic: u32,
    classes: &[u32],
    given: u32,
) -> Result<(), AllocError>
    ensures { OnOk result (domains.new
        ≡ domains.old ++ rows.domain_row generic classes.now given ∷ []) }
{
    domains.push(DomainRow {
        generic: generic_id(generic),
        types: types(alloc, classes)?,
        result: Some(type_row(alloc, given)?),
    })?;
    Ok(())
}

fn domains(alloc: Global) -> Result<Items<DomainRow>, AllocError>
    ensures { IfOk result (λ domains. domains ≡ rows.domains) }
{
    let mut domains = Items::new(alloc);
    add_domain(alloc, &mut domains, 0, &[9, 9], 9)?;
    add_domain(alloc, &mut domains, 1, &[9, 9], 9)?;
    add_domain(alloc, &mut domains, 2, &[9, 9], 9)?;
    add_domain(alloc, &mut domains, 3, &[9], 9)?;
    add_domain(alloc, &mut domains, 4, &[9, 9], 1)?;
    add_domain(alloc, &mut domains, 4, &[2, 2], 1)?;
    Ok(domains)
}

fn add_function(
    alloc: Global,
    functions: &mut Items<VariableRow>,
    name: &[u8],
    operation: u16,
) -> Result<(), AllocError>
    ensures { OnOk result (functions.new
        ≡ functions.old ++ rows.function_row (folded name.now) operation ∷ []) }
{
    functions.push(VariableRow {
        name: fold(alloc, name)?,
        declared: type_row(alloc, 0)?,
        is_constant: true,
        function: None,
        named: None,
        builtin: Some(operation),
    })?;
    Ok(())
}

fn functions(alloc: Global) -> Result<Items<VariableRow>, AllocError>
    ensures { IfOk result (λ functions. functions ≡ rows.functions) }
{
    let mut functions = Items::new(alloc);
    add_function(alloc, &mut functions, b"==", 28)?;
    add_function(alloc, &mut functions, b"~", 29)?;
    add_function(alloc, &mut functions, b"values", 61)?;
    Ok(functions)
}

/// The rows of the library `dylan`: its 33 classes, and the generic functions, methods, sealed
/// domains and functions of the operations that `apply` has. It is the first library of each
/// program.
pub fn dylan(alloc: Global) -> Result<LibraryRow, AllocError>
    ensures { IfOk result (λ row. row ≡ rows.dylan_row) }
{
    Ok(LibraryRow {
        name: fold(alloc, b"dylan")?,
        uses: Items::new(alloc),
        classes: classes(alloc)?,
        generics: generics(alloc)?,
        methods: methods(alloc)?,
        domains: domains(alloc)?,
        variables: functions(alloc)?,
        tops: Items::new(alloc),
    })
}

/// The rows of the library `io`: the function `format-out`. It is the second library of each
/// program.
pub fn io(alloc: Global) -> Result<LibraryRow, AllocError>
    ensures { IfOk result (λ row. row ≡ rows.io_row) }
{
    let mut uses = Items::new(alloc);
    uses.push(0)?;
    let mut variables = Items::new(alloc);
    add_function(alloc, &mut variables, b"format-out", 71)?;
    Ok(LibraryRow {
        name: fold(alloc, b"io")?,
        uses,
        classes: Items::new(alloc),
        generics: Items::new(alloc),
        methods: Items::new(alloc),
        domains: Items::new(alloc),
        variables,
        tops: Items::new(alloc),
    })
}
