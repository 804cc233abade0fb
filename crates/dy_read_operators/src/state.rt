//! The reader of one expression, fragment by fragment. What stands inside of a group is read by
//! others.

ghost use Rattle.std.specs.Prelude.{◌≡◌, suc, IfOk, Some, option_map};
ghost use Rattle.dy_tree.specs.declared.roles.Role.TheVariants as roles;
ghost use Rattle.dy_rules.specs.Operators as operators;
ghost use Rattle.dy_rules.specs.Roles as rules;
ghost use Rattle.dy_rules.specs.Trees as trees;
ghost use Rattle.dy_rules.specs.Reading as reading;
ghost use Rattle.dy_rules_depth.specs.Capping.{capped, capping};
ghost use Rattle.dy_rules_depth.specs.ReaderChanges.{changed_state};
ghost use Rattle.dy_read_outers.specs.Grown.{read_grown};
ghost use Rattle.dy_read_outers.specs.Outers.{seen_outer};
ghost use Rattle.dy_read_outers.specs.Passed.{read_passed};
ghost use Rattle.dy_read_operators.specs.Machines as spec;

use dy_read_outers::grown::Grown;
use dy_read_outers::nodes::{call, element, literal, member, name};
use dy_read_outers::outer::{Entry, Outer, below, finish, integer_part, reduce};
use dy_read_outers::passed::Passed;
use dy_read_parts::literal::positive;
use dy_read_words::role::role_of;
use dy_read_words::splitter::splits;
use dy_tree::{Bracket, LiteralForm, Precedence, Role, Splitting, Token};
use std::alloc::{AllocError, Global};

/// What was read last.
#[derive(Drop)]
pub enum State {
    /// An operand comes.
    Wants,
    /// An integer was read.
    Counted(Token),
    /// Another operand was read.
    Has(Grown),
    /// An operand and a dot were read.
    Dotted(Grown),
}

/// What was read of an expression.
#[derive(Drop)]
pub struct Machine {
    pub state: State,
    pub outer: Outer,
}

/// What is to be read inside of a group.
#[derive(Clone, Copy, Debug, PartialEq, Eq)]
pub enum Need {
    Tree,
    Arguments,
    Nothing,
}

#[tactic(auto, using(crate::proofs::Machines::state_kept, dy_read_outers::proofs::Stacks::outer_kept))]
fn make_machine(state: State, outer: Outer) -> Machine
    ensures { spec.seen_machine result
        ≡ changed_state capping (spec.seen_state state (seen_outer outer)) }
{
    Machine { state, outer }
}

/// An operand that is a literal.
fn literal_operand(
    alloc: Global,
    outer: Outer,
    form: LiteralForm,
) -> Result<Option<Machine>, AllocError>
    ensures { IfOk result (λ next. option_map spec.seen_machine next
        ≡ Some (changed_state capping (reading.has (trees.literal form) (seen_outer outer)))) }
{
    let tree = literal(alloc, form)?;
    Ok(Some(make_machine(State::Has(tree), outer)))
}

/// An operand that is a name.
#[tactic(auto, using(crate::proofs::Machines::named_present))]
fn named_operand(
    alloc: Global,
    words: Splitting,
    outer: Outer,
    token: &Token,
) -> Result<Option<Machine>, AllocError>
    requires { rules.role_of token.now ≡ roles.Named }
    ensures { IfOk result (λ next. option_map spec.seen_machine next
        ≡ option_map (changed_state capping)
        (reading.name_if (rules.splits words token.now) token.now (seen_outer outer))) }
{
    if splits(words, token) {
        Ok(None)
    } else {
        let tree = name(alloc, token)?;
        Ok(Some(make_machine(State::Has(tree), outer)))
    }
}

/// A sign in front of its operand.
fn under(outer: Outer, sign: &Token) -> Result<Option<Machine>, AllocError>
    ensures { IfOk result (λ next. option_map spec.seen_machine next
        ≡ Some (changed_state capping
        (reading.wants (reading.under sign.now (seen_outer outer))))) }
{
    let mut outer = outer;
    let sign = sign.copy()?;
    outer.push(Entry::Under { sign })?;
    Ok(Some(make_machine(State::Wants, outer)))
}

/// A token where an operand comes.
fn at_operand(
    alloc: Global,
    words: Splitting,
    outer: Outer,
    token: &Token,
    role: Role,
) -> Result<Option<Machine>, AllocError>
    requires { role ≡ rules.role_of token.now }
    ensures { IfOk result (λ next. option_map spec.seen_machine next
        ≡ option_map (changed_state capping)
        (reading.at_operand words (seen_outer outer) token.now role)) }
{
    match role {
        Role::Integer => Ok(Some(make_machine(State::Counted(token.copy()?), outer))),
        Role::Character => literal_operand(alloc, outer, LiteralForm::Char(token.copy()?)),
        Role::Text => literal_operand(alloc, outer, LiteralForm::Str(token.copy()?)),
        Role::Boolean => literal_operand(alloc, outer, LiteralForm::Bool(token.copy()?)),
        Role::Symbol => literal_operand(alloc, outer, LiteralForm::Symbol(token.copy()?)),
        Role::Named => named_operand(alloc, words, outer, token),
        Role::Minus => under(outer, token),
        Role::Tilde => under(outer, token),
        _ => Ok(None),
    }
}

/// An operator of two operands, behind the left one.
#[tactic(auto, using(crate::proofs::Machines::operates_made))]
fn operates(
    alloc: Global,
    precedence: Precedence,
    sign: &Token,
    tree: Grown,
    outer: Outer,
) -> Result<Option<Machine>, AllocError>
    ensures { IfOk result (λ next. option_map spec.seen_machine next
        ≡ Some (changed_state capping
        (reading.operates precedence sign.now
        (reading.reduced (suc (operators.below precedence)) (read_grown tree)
        (seen_outer outer))))) }
{
    let mut outer = outer;
    let left = reduce(alloc, below(precedence) + 1, tree, &mut outer)?;
    let sign = sign.copy()?;
    outer.push(Entry::Operated {
        precedence,
        left,
        sign,
    })?;
    Ok(Some(make_machine(State::Wants, outer)))
}

/// `:=` behind what is assigned to.
#[tactic(auto, using(crate::proofs::Machines::assigns_made))]
fn assigns_to(
    alloc: Global,
    sign: &Token,
    tree: Grown,
    outer: Outer,
) -> Result<Option<Machine>, AllocError>
    ensures { IfOk result (λ next. option_map spec.seen_machine next
        ≡ Some (changed_state capping
        (reading.assigns_to (reading.reduced 5 (read_grown tree) (seen_outer outer))))) }
{
    let mut outer = outer;
    let place = reduce(alloc, 5, tree, &mut outer)?;
    let sign = sign.copy()?;
    outer.push(Entry::Assigned { place, sign })?;
    Ok(Some(make_machine(State::Wants, outer)))
}

/// A token behind an operand.
fn behind(
    alloc: Global,
    tree: Grown,
    outer: Outer,
    token: &Token,
    role: Role,
) -> Result<Option<Machine>, AllocError>
    ensures { IfOk result (λ next. option_map spec.seen_machine next
        ≡ option_map (changed_state capping)
        (reading.behind (read_grown tree, seen_outer outer)
        (read_grown tree, seen_outer outer) token.now role)) }
{
    match role {
        Role::Operator(precedence) => operates(alloc, precedence, token, tree, outer),
        Role::Minus => operates(alloc, Precedence::Sum, token, tree, outer),
        Role::Assigns => assigns_to(alloc, token, tree, outer),
        Role::Dot => Ok(Some(make_machine(State::Dotted(tree), outer))),
        _ => Ok(None),
    }
}

/// An integer in front of such a token: in front of a dot by itself, and else with its sign.
fn integer_for(
    alloc: Global,
    role: Role,
    digits: &Token,
    outer: &mut Outer,
) -> Result<Grown, AllocError>
    ensures { IfOk result (λ grown. (read_grown grown, seen_outer outer.new)
        ≡ spec.integer_for role digits.now (seen_outer outer.old)) }
{
    match role {
        Role::Dot => literal(alloc, positive(digits)?),
        _ => integer_part(alloc, digits, outer),
    }
}

/// A token behind an integer.
#[tactic(auto, using(crate::proofs::Machines::behind_integer))]
fn behind_integer(
    alloc: Global,
    digits: Token,
    outer: Outer,
    token: &Token,
    role: Role,
) -> Result<Option<Machine>, AllocError>
    ensures { IfOk result (λ next. option_map spec.seen_machine next
        ≡ option_map (changed_state capping)
        (reading.behind (trees.literal (rules.positive digits), seen_outer outer)
        (reading.integer_part digits (seen_outer outer)) token.now role)) }
{
    let mut outer = outer;
    let tree = integer_for(alloc, role, &digits, &mut outer)?;
    behind(alloc, tree, outer, token, role)
}

/// A token behind an operand and a dot.
fn behind_dot(
    alloc: Global,
    words: Splitting,
    tree: Grown,
    outer: Outer,
    token: &Token,
    role: Role,
) -> Result<Option<Machine>, AllocError>
    ensures { IfOk result (λ next. option_map spec.seen_machine next
        ≡ option_map (changed_state capping)
        (reading.behind_dot words (read_grown tree) (seen_outer outer) token.now role)) }
{
    match role {
        Role::Named => member_operand(alloc, words, tree, outer, token),
        _ => Ok(None),
    }
}

/// A member of an operand.
#[tactic(auto, using(crate::proofs::Machines::has_made))]
fn member_operand(
    alloc: Global,
    words: Splitting,
    tree: Grown,
    outer: Outer,
    token: &Token,
) -> Result<Option<Machine>, AllocError>
    ensures { IfOk result (λ next. option_map spec.seen_machine next
        ≡ option_map (changed_state capping)
        (reading.member_if (rules.splits words token.now) (read_grown tree)
        (seen_outer outer) token.now)) }
{
    if splits(words, token) {
        Ok(None)
    } else {
        let tree = member(alloc, tree, token)?;
        Ok(Some(make_machine(State::Has(tree), outer)))
    }
}

/// An operand in brackets.
fn in_brackets(outer: Outer, tree: Option<Grown>) -> Option<Machine>
    ensures { option_map spec.seen_machine result
        ≡ option_map (changed_state capping)
        (option_map (reading.in_brackets (seen_outer outer)) (option_map read_grown tree)) }
{
    match tree {
        Some(tree) => Some(make_machine(State::Has(tree), outer)),
        None => None,
    }
}

/// A group where an operand comes.
fn group_at_operand(outer: Outer, bracket: Bracket, tree: Option<Grown>) -> Option<Machine>
    ensures { option_map spec.seen_machine result
        ≡ option_map (changed_state capping)
        (reading.group_at_operand (seen_outer outer) bracket (option_map read_grown tree)) }
{
    match bracket {
        Bracket::Round => in_brackets(outer, tree),
        Bracket::Hidden => in_brackets(outer, tree),
        Bracket::SharpRound => in_brackets(outer, tree),
        Bracket::SharpSquare => in_brackets(outer, tree),
        Bracket::Statement(_) => in_brackets(outer, tree),
        Bracket::Square => None,
        Bracket::Special => None,
    }
}

/// A call of an operand.
#[tactic(auto, using(crate::proofs::Machines::has_made))]
fn called(
    alloc: Global,
    function: Grown,
    outer: Outer,
    opener: &Token,
    passed: Option<Passed>,
) -> Result<Option<Machine>, AllocError>
    ensures { IfOk result (λ next. option_map spec.seen_machine next
        ≡ option_map (changed_state capping)
        (option_map (reading.called (read_grown function, seen_outer outer))
        (option_map read_passed passed))) }
{
    match passed {
        Some(passed) => {
            let tree = call(alloc, function, opener, passed)?;
            Ok(Some(make_machine(State::Has(tree), outer)))
        }
        None => Ok(None),
    }
}

/// An element of an operand.
#[tactic(auto, using(crate::proofs::Machines::has_made))]
fn indexed(
    alloc: Global,
    object: Grown,
    outer: Outer,
    opener: &Token,
    index: Option<Grown>,
) -> Result<Option<Machine>, AllocError>
    ensures { IfOk result (λ next. option_map spec.seen_machine next
        ≡ option_map (changed_state capping)
        (option_map (reading.indexed (read_grown object, seen_outer outer) opener.now)
        (option_map read_grown index))) }
{
    match index {
        Some(index) => {
            let tree = element(alloc, object, opener, index)?;
            Ok(Some(make_machine(State::Has(tree), outer)))
        }
        None => Ok(None),
    }
}

/// A group behind an operand.
fn group_behind(
    alloc: Global,
    object: Grown,
    outer: Outer,
    bracket: Bracket,
    opener: &Token,
    tree: Option<Grown>,
    passed: Option<Passed>,
) -> Result<Option<Machine>, AllocError>
    ensures { IfOk result (λ next. option_map spec.seen_machine next
        ≡ option_map (changed_state capping)
        (reading.group_behind (read_grown object, seen_outer outer) opener.now bracket
        (option_map read_grown tree) (option_map read_passed passed))) }
{
    match bracket {
        Bracket::Round => called(alloc, object, outer, opener, passed),
        Bracket::Square => indexed(alloc, object, outer, opener, tree),
        _ => Ok(None),
    }
}

/// What is to be read inside of a group that stands where an operand comes.
pub fn need_at_operand(bracket: Bracket) -> Need
    ensures { result ≡ spec.need_at_operand bracket }
{
    match bracket {
        Bracket::Round | Bracket::Hidden => Need::Tree,
        Bracket::SharpRound | Bracket::SharpSquare | Bracket::Statement(_) => Need::Tree,
        Bracket::Square | Bracket::Special => Need::Nothing,
    }
}

/// What is to be read inside of a group that stands behind an operand.
pub fn need_behind(bracket: Bracket) -> Need
    ensures { result ≡ spec.need_behind bracket }
{
    match bracket {
        Bracket::Round => Need::Arguments,
        Bracket::Square => Need::Tree,
        _ => Need::Nothing,
    }
}

impl Machine {
    /// Nothing was read.
    pub fn new(alloc: Global) -> Machine
        ensures { spec.seen_machine result ≡ reading.wants reading.whole }
    {
        Machine {
            state: State::Wants,
            outer: Outer::new(alloc),
        }
    }

    /// What is to be read inside of a group that stands next.
    pub fn need(&self, bracket: Bracket) -> Need
        ensures { result ≡ spec.need_of (spec.seen_machine self.now) bracket }
    {
        match &self.state {
            State::Wants => need_at_operand(bracket),
            State::Counted(_) => need_behind(bracket),
            State::Has(_) => need_behind(bracket),
            State::Dotted(_) => Need::Nothing,
        }
    }

    /// Reads a token.
    pub fn token(
        self,
        alloc: Global,
        words: Splitting,
        token: &Token,
    ) -> Result<Option<Machine>, AllocError>
        ensures { IfOk result (λ next. option_map spec.seen_machine next
            ≡ option_map (changed_state capping)
            (reading.at_token words (spec.seen_machine self) token.now)) }
    {
        let role = role_of(token);
        let Machine { state, outer } = self;
        match state {
            State::Wants => at_operand(alloc, words, outer, token, role),
            State::Counted(digits) => behind_integer(alloc, digits, outer, token, role),
            State::Has(tree) => behind(alloc, tree, outer, token, role),
            State::Dotted(tree) => behind_dot(alloc, words, tree, outer, token, role),
        }
    }

    /// Reads a group, whose inside is this expression or these arguments.
    pub fn group(
        self,
        alloc: Global,
        bracket: Bracket,
        opener: &Token,
        tree: Option<Grown>,
        passed: Option<Passed>,
    ) -> Result<Option<Machine>, AllocError>
        ensures { IfOk result (λ next. option_map spec.seen_machine next
            ≡ option_map (changed_state capping)
            (reading.at_group (spec.seen_machine self) opener.now bracket
            (option_map read_grown tree) (option_map read_passed passed))) }
    {
        let Machine { state, outer } = self;
        match state {
            State::Wants => Ok(group_at_operand(outer, bracket, tree)),
            State::Counted(digits) => {
                let object = literal(alloc, positive(&digits)?)?;
                group_behind(alloc, object, outer, bracket, opener, tree, passed)
            }
            State::Has(object) => {
                group_behind(alloc, object, outer, bracket, opener, tree, passed)
            }
            State::Dotted(_) => Ok(None),
        }
    }

    /// The expression, where the fragments end.
    pub fn tree(self, alloc: Global) -> Result<Option<Grown>, AllocError>
        ensures { IfOk result (λ found. option_map read_grown found
            ≡ option_map capped (reading.tree_of (spec.seen_machine self))) }
    {
        let Machine { state, outer } = self;
        match state {
            State::Counted(digits) => {
                let mut outer = outer;
                let tree = integer_part(alloc, &digits, &mut outer)?;
                Ok(Some(finish(alloc, tree, outer)?))
            }
            State::Has(tree) => Ok(Some(finish(alloc, tree, outer)?)),
            State::Wants | State::Dotted(_) => Ok(None),
        }
    }
}
