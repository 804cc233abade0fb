//! The code of a library, and of a program.

use crate::instr::Instr;
use dy_base::{BindingId, Exports, Items, MethodId, Name};
use dy_term::{DyType, LibraryRow, Literal, Params, Program, Results};
use dy_tree::Macro;

/// The code of a method, a function, a closure, an init expression or a form that runs.
#[derive(Drop)]
pub struct Body {
    /// How many locals it has. They begin as `#f`.
    pub locals: u32,
    /// How many values it captures.
    pub captures: u32,
    /// How many instructions at most run one after the other without one that is a `Tick`.
    pub stretch: u64,
    /// Its instructions. An address is a place in this list.
    pub code: Items<Instr>,
}

/// A form that runs when its library is loaded.
#[derive(Drop)]
pub enum TopCode {
    /// The variables and constants that take the values of a body, by its number.
    Init(Items<BindingId>, u32),
    /// A body, by its number.
    Run(u32),
}

/// The code of a library, with the lists that its operands count in. No list holds an item twice.
#[derive(Drop)]
pub struct UnitCode {
    pub constants: Items<Literal>,
    pub names: Items<BindingId>,
    /// Lists of sorted methods, each with those behind them that are ambiguous.
    pub bound: Items<(Items<MethodId>, Items<MethodId>)>,
    pub lists: Items<Params>,
    pub types: Items<DyType>,
    pub results: Items<Results>,
    pub bodies: Items<Body>,
    /// The bodies of the methods that are written in Dylan, then of the functions, then of the init
    /// expressions of slots, each in the order of the text.
    pub starts: Items<u32>,
    pub tops: Items<TopCode>,
    /// The longest stretch of its bodies.
    pub stretch: u64,
}

/// A library as its sources give it: its rows, what it exports, its macros, and the libraries that
/// it uses with the digests of their interfaces.
#[derive(Drop)]
pub struct Library {
    pub row: LibraryRow,
    pub exports: Exports,
    pub macros: Items<Macro>,
    /// All libraries that it uses, in load order. Each digest is 32 zero bytes until libraries are
    /// kept in files.
    pub uses: Items<(Name, [u8; 32])>,
}

/// A library that is compiled. Its row holds no terms.
#[derive(Drop)]
pub struct Unit {
    pub name: Name,
    /// All libraries that it uses, in load order, with the digests of their interfaces.
    pub uses: Items<(Name, [u8; 32])>,
    pub row: LibraryRow,
    pub exports: Exports,
    pub macros: Items<Macro>,
    pub code: UnitCode,
}

/// A program that can run.
#[derive(Drop)]
pub struct Linked {
    /// The rows of its libraries, in load order.
    pub program: Program,
    /// The code of each library, in load order. Rows of other libraries are named by these places.
    pub code: Items<UnitCode>,
    /// The longest stretch of all bodies.
    pub stretch: u64,
}
