//! The reader of arguments, fragment by fragment. What stands inside of a group is read by others.

ghost use Rattle.std.specs.Prelude.{◌≡◌, [], IfOk, Some, map, option_map};
ghost use Rattle.dy_tree.specs.declared.types.LiteralForm.TheVariants as literals;
ghost use Rattle.dy_rules.specs.SeenForms.{seen_argument, seen_tree};
ghost use Rattle.dy_rules.specs.Roles as rules;
ghost use Rattle.dy_rules.specs.Trees as trees;
ghost use Rattle.dy_rules.specs.Reading as reading;
ghost use Rattle.dy_rules_depth.specs.Changes.{changed_argument};
ghost use Rattle.dy_rules_depth.specs.ReaderChanges.{changed_passing};
ghost use Rattle.dy_rules_depth.specs.Capping.{capping};
ghost use Rattle.dy_read_outers.specs.Grown.{read_grown};
ghost use Rattle.dy_read_outers.specs.Passed.{read_passed};
ghost use Rattle.dy_read_operators.specs.Machines.{seen_machine};
ghost use Rattle.dy_read_operators.specs.PassingSteps as steps;
ghost use Rattle.dy_read_operators.specs.Passings as spec;

use crate::state::{Machine, Need, State, need_at_operand, need_behind};
use dy_read_outers::grown::Grown;
use dy_read_outers::nodes::literal;
use dy_read_outers::outer::Outer;
use dy_read_outers::passed::Passed;
use dy_read_parts::depth::deepest;
use dy_read_parts::value::role_begins_value;
use dy_read_words::role::role_of;
use dy_tree::{Argument, Bracket, Expression, LiteralForm, Role, Splitting, Token};
use std::alloc::{AllocError, Global};

/// A part of an argument was read, after its keyword if it has one.
#[derive(Drop)]
pub struct Value {
    pub passed: Passed,
    pub keyword: Option<Token>,
    pub machine: Machine,
}

/// What was read of arguments.
#[derive(Drop)]
pub enum Passing {
    /// Nothing.
    Nothing,
    /// An argument comes.
    Next(Passed),
    /// A symbol at the front of an argument.
    SymbolFirst(Passed, Token),
    /// A part of an argument.
    Within(Value),
}

/// No arguments.
fn none_passed(alloc: Global) -> Passed
    ensures { read_passed result ≡ [] }
{
    Passed {
        arguments: Vec::new(alloc),
        depth: 0,
    }
}

fn argument_of(keyword: Option<Token>, value: Expression) -> Argument
    ensures { seen_argument result ≡ reading.argument_of keyword (seen_tree value) }
{
    match keyword {
        Some(keyword) => Argument::Keyword { keyword, value },
        None => Argument::Value(value),
    }
}

/// One argument more.
fn with_last(passed: Passed, keyword: Option<Token>, tree: Grown) -> Result<Passed, AllocError>
    ensures { IfOk result (λ more. read_passed more
        ≡ reading.with_last (read_passed passed) keyword (read_grown tree)) }
{
    let depth = deepest(passed.depth, tree.depth);
    let argument = argument_of(keyword, Box::into_inner(tree.tree));
    let mut arguments = passed.arguments;
    arguments.push(argument)?;
    Ok(Passed { arguments, depth })
}

/// One argument more, if there is one.
fn with_tree(
    passed: Passed,
    keyword: Option<Token>,
    tree: Option<Grown>,
) -> Result<Option<Passed>, AllocError>
    ensures { IfOk result (λ found. option_map read_passed found
        ≡ option_map (reading.with_last (read_passed passed) keyword)
        (option_map read_grown tree)) }
{
    match tree {
        Some(tree) => Ok(Some(with_last(passed, keyword, tree)?)),
        None => Ok(None),
    }
}

/// The same arguments, with what was read of the next one.
fn with_machine(passed: Passed, keyword: Option<Token>, machine: Option<Machine>) -> Option<Passing>
    ensures { option_map spec.seen_passing result
        ≡ option_map (reading.passing (read_passed passed) keyword)
        (option_map seen_machine machine) }
{
    match machine {
        Some(machine) => Some(Passing::Within(Value {
            passed,
            keyword,
            machine,
        })),
        None => None,
    }
}

/// A comma behind arguments.
fn behind_comma(passed: Option<Passed>) -> Option<Passing>
    ensures { option_map spec.seen_passing result
        ≡ option_map reading.passes_next (option_map read_passed passed) }
{
    match passed {
        Some(passed) => Some(Passing::Next(passed)),
        None => None,
    }
}

impl Value {
    /// Reads a token.
    fn token(self, alloc: Global, token: &Token) -> Result<Option<Passing>, AllocError>
        ensures { IfOk result (λ next. option_map spec.seen_passing next
            ≡ option_map (changed_passing capping)
            (steps.value_token (spec.seen_value self) token.now)) }
    {
        let Value {
            passed,
            keyword,
            machine,
        } = self;
        let next = machine.token(alloc, Splitting::Nothing, token)?;
        Ok(with_machine(passed, keyword, next))
    }

    /// Reads a group.
    fn group(
        self,
        alloc: Global,
        bracket: Bracket,
        opener: &Token,
        tree: Option<Grown>,
        arguments: Option<Passed>,
    ) -> Result<Option<Passing>, AllocError>
        ensures { IfOk result (λ next. option_map spec.seen_passing next
            ≡ option_map (changed_passing capping)
            (steps.value_group (spec.seen_value self) opener.now bracket
            (option_map read_grown tree) (option_map read_passed arguments))) }
    {
        let Value {
            passed,
            keyword,
            machine,
        } = self;
        let next = machine.group(alloc, bracket, opener, tree, arguments)?;
        Ok(with_machine(passed, keyword, next))
    }

    /// The arguments with this one, where it ends.
    fn finish(self, alloc: Global) -> Result<Option<Passed>, AllocError>
        ensures { IfOk result (λ found. option_map read_passed found
            ≡ option_map (map (changed_argument capping))
            (reading.arguments_in (spec.seen_value self))) }
    {
        let Value {
            passed,
            keyword,
            machine,
        } = self;
        let tree = machine.tree(alloc)?;
        with_tree(passed, keyword, tree)
    }
}

/// A machine that read a symbol.
fn symbol_machine(alloc: Global, symbol: Token) -> Result<Machine, AllocError>
    ensures { IfOk result (λ machine. seen_machine machine
        ≡ reading.has (trees.literal (literals.Symbol symbol)) reading.whole) }
{
    let tree = literal(alloc, LiteralForm::Symbol(symbol))?;
    Ok(Machine {
        state: State::Has(tree),
        outer: Outer::new(alloc),
    })
}

/// A symbol at the front of an argument, as a keyword or as an operand.
fn symbol_ahead(
    alloc: Global,
    passed: Passed,
    symbol: Token,
    begins: bool,
) -> Result<Value, AllocError>
    ensures { IfOk result (λ value. spec.seen_value value
        ≡ steps.ahead begins (reading.symbol_first (read_passed passed) symbol)) }
{
    if begins {
        Ok(Value {
            passed,
            keyword: Some(symbol),
            machine: Machine::new(alloc),
        })
    } else {
        let machine = symbol_machine(alloc, symbol)?;
        Ok(Value {
            passed,
            keyword: None,
            machine,
        })
    }
}

/// A symbol at the front of an argument.
#[tactic(auto, using(crate::proofs::PassingSteps::passed_kept))]
fn symbol_first(passed: Passed, token: &Token) -> Result<Option<Passing>, AllocError>
    ensures { IfOk result (λ next. option_map spec.seen_passing next
        ≡ Some (changed_passing capping (reading.symbol_first (read_passed passed) token.now))) }
{
    let symbol = token.copy()?;
    Ok(Some(Passing::SymbolFirst(passed, symbol)))
}

impl Passing {
    /// No argument.
    pub fn new() -> Passing
        ensures { spec.seen_passing result ≡ reading.nothing_passed }
    {
        Passing::Nothing
    }

    /// What reads the next fragment as a part of an argument, where a value begins with it or does
    /// not.
    fn ahead(self, alloc: Global, begins: bool) -> Result<Value, AllocError>
        ensures { IfOk result (λ value. spec.seen_value value
            ≡ steps.ahead begins (spec.seen_passing self)) }
    {
        match self {
            Passing::Nothing => Ok(Value {
                passed: none_passed(alloc),
                keyword: None,
                machine: Machine::new(alloc),
            }),
            Passing::Next(passed) => Ok(Value {
                passed,
                keyword: None,
                machine: Machine::new(alloc),
            }),
            Passing::SymbolFirst(passed, symbol) => symbol_ahead(alloc, passed, symbol, begins),
            Passing::Within(value) => Ok(value),
        }
    }

    /// What is to be read inside of a group that stands next.
    pub fn need(&self, begins: bool, bracket: Bracket) -> Need
        ensures { result ≡ steps.need_ahead begins (spec.seen_passing self.now) bracket }
    {
        match self {
            Passing::Nothing => need_at_operand(bracket),
            Passing::Next(_) => need_at_operand(bracket),
            Passing::SymbolFirst(_, _) => {
                if begins {
                    need_at_operand(bracket)
                } else {
                    need_behind(bracket)
                }
            }
            Passing::Within(value) => value.machine.need(bracket),
        }
    }

    /// Reads a group, with which a value begins or does not.
    pub fn group(
        self,
        alloc: Global,
        begins: bool,
        bracket: Bracket,
        opener: &Token,
        tree: Option<Grown>,
        arguments: Option<Passed>,
    ) -> Result<Option<Passing>, AllocError>
        ensures { IfOk result (λ next. option_map spec.seen_passing next
            ≡ option_map (changed_passing capping)
            (steps.value_group (steps.ahead begins (spec.seen_passing self)) opener.now bracket
            (option_map read_grown tree) (option_map read_passed arguments))) }
    {
        let value = self.ahead(alloc, begins)?;
        value.group(alloc, bracket, opener, tree, arguments)
    }

    /// Reads a token.
    pub fn token(self, alloc: Global, token: &Token) -> Result<Option<Passing>, AllocError>
        ensures { IfOk result (λ next. option_map spec.seen_passing next
            ≡ option_map (changed_passing capping)
            (steps.after_token (rules.role_of token.now) (spec.seen_passing self) token.now)) }
    {
        self.by_role(alloc, token, role_of(token))
    }

    /// Reads a token of such a role.
    fn by_role(
        self,
        alloc: Global,
        token: &Token,
        role: Role,
    ) -> Result<Option<Passing>, AllocError>
        ensures { IfOk result (λ next. option_map spec.seen_passing next
            ≡ option_map (changed_passing capping)
            (steps.after_token role (spec.seen_passing self) token.now)) }
    {
        match role {
            Role::Comma => self.comma(alloc),
            Role::Symbol => self.symbol(alloc, token),
            _ => {
                let value = self.ahead(alloc, role_begins_value(role))?;
                value.token(alloc, token)
            }
        }
    }

    /// Reads a comma.
    fn comma(self, alloc: Global) -> Result<Option<Passing>, AllocError>
        ensures { IfOk result (λ next. option_map spec.seen_passing next
            ≡ option_map (changed_passing capping)
            (option_map reading.passes_next (reading.arguments_in (spec.seen_passing self)))) }
    {
        let passed = self.arguments(alloc)?;
        Ok(behind_comma(passed))
    }

    /// Reads a symbol.
    fn symbol(self, alloc: Global, token: &Token) -> Result<Option<Passing>, AllocError>
        ensures { IfOk result (λ next. option_map spec.seen_passing next
            ≡ option_map (changed_passing capping)
            (steps.after_symbol (spec.seen_passing self) token.now)) }
    {
        match self {
            Passing::Nothing => symbol_first(none_passed(alloc), token),
            Passing::Next(passed) => symbol_first(passed, token),
            Passing::SymbolFirst(passed, symbol) => {
                let value = symbol_ahead(alloc, passed, symbol, true)?;
                value.token(alloc, token)
            }
            Passing::Within(value) => value.token(alloc, token),
        }
    }

    /// The arguments, where an argument ends.
    fn arguments(self, alloc: Global) -> Result<Option<Passed>, AllocError>
        ensures { IfOk result (λ found. option_map read_passed found
            ≡ option_map (map (changed_argument capping))
            (reading.arguments_in (spec.seen_passing self))) }
    {
        match self {
            Passing::Nothing => Ok(None),
            Passing::Next(_) => Ok(None),
            Passing::SymbolFirst(passed, symbol) => {
                let value = symbol_ahead(alloc, passed, symbol, false)?;
                value.finish(alloc)
            }
            Passing::Within(value) => value.finish(alloc),
        }
    }

    /// The arguments, where the fragments end.
    pub fn finish(self, alloc: Global) -> Result<Option<Passed>, AllocError>
        ensures { IfOk result (λ found. option_map read_passed found
            ≡ option_map (map (changed_argument capping))
            (reading.arguments_at_end (spec.seen_passing self))) }
    {
        match self {
            Passing::Nothing => Ok(Some(none_passed(alloc))),
            Passing::Next(_) => Ok(None),
            Passing::SymbolFirst(passed, symbol) => {
                let value = symbol_ahead(alloc, passed, symbol, false)?;
                value.finish(alloc)
            }
            Passing::Within(value) => value.finish(alloc),
        }
    }
}
