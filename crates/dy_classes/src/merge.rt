//! The merge of the orders of the direct superclasses.

ghost use Rattle.std.specs.Prelude.{◌≡◌, ◌+◌, ◌<◌, ◌≤◌, [], ◌∷◌, length, drop, slice_index_or};
ghost use Rattle.std.specs.Prelude.{IfOk, IfSome, OnOk, MatchOption};
ghost use Rattle.dy_base.specs.declared.ids.ClassId.{ClassId};
ghost use Rattle.dy_classes.specs.Rows.{supers_at, order_at, lists_at};
ghost use Rattle.dy_classes.specs.Merge.{next_of, newest, run, all_listed, total, IsMerged};
ghost use Rattle.dy_classes.specs.Merge.{IsStuck};
ghost use Rattle.dy_classes.specs.Counters.{count_at, free, occurs, tail, advanced, Counted};

use crate::counts::ClassCounts;
use crate::rows::{order_of, supers_of};
use dy_base::ClassId;
use dy_term::Program;
use std::alloc::{AllocError, Global};

/// The state of a merge.
#[derive(Drop)]
pub(crate) struct Merge {
    /// What is listed so far.
    listed: Vec<ClassId>,
    /// The place in each list where what is left of it begins.
    heads: Vec<usize>,
    /// For each class how often it stands behind the first of what is left of a list, and one more
    /// if it is listed.
    counts: ClassCounts,
}

/// The list at a place: the direct superclasses, and then the order of each.
fn list_at(program: &Program, class: ClassId, place: usize) -> &[ClassId]
    requires { place < length (lists_at program.now class) }
    ensures { result.now ≡ slice_index_or (lists_at program.now class) place [] }
{
    let supers = supers_of(program, class);
    if place == 0 {
        supers
    } else {
        order_of(program, supers[place - 1])
    }
}

/// How long all lists are together.
fn total_length(program: &Program, class: ClassId) -> Option<usize>
    ensures { IfSome result (λ length. length ≡ total (lists_at program.now class)) }
{
    let supers = supers_of(program, class);
    let mut length = supers.len();
    for above in supers {
        length = length.checked_add(order_of(program, *above).len())?;
    }
    Some(length)
}

/// Moves past the first of what is left of a list if it is the class that is being listed, and
/// takes the new first off its count.
fn move_head(list: &[ClassId], class: ClassId, head: usize, counts: &mut ClassCounts) -> usize
    requires within { head ≤ length list.now }
    requires enough { (y : ClassId)
        → occurs y (tail (drop head list.now)) ≤ count_at counts.old.rows.items y }
    ensures head { drop result list.now ≡ advanced class (drop head list.now) }
    ensures bound { result ≤ length list.now }
    ensures counts { (y : ClassId)
        → count_at counts.new.rows.items y + occurs y
        (tail (drop head list.now)) ≡ count_at counts.old.rows.items y + occurs y
        (tail (advanced class (drop head list.now))) }
{
    if head == list.len() {
        return head;
    }
    if list[head] != class {
        return head;
    }
    if head + 1 < list.len() {
        counts.lower(list[head + 1]);
    }
    head + 1
}

impl Merge {
    /// The state in which nothing is listed.
    fn start(alloc: Global, program: &Program, class: ClassId) -> Result<Merge, AllocError>
        ensures listed { IfOk result (λ merge. merge.listed.items ≡ []) }
        ensures counted { IfOk result
            (λ merge. Counted (lists_at program.now class)
            [] merge.heads.items merge.counts.rows.items) }
    {
        let mut counts = ClassCounts::new(alloc, program)?;
        let supers = supers_of(program, class);
        counts.raise_tail(supers)?;
        for above in supers {
            counts.raise_tail(order_of(program, *above))?;
        }
        let heads = vec![in alloc; 0; supers.len() + 1]?;
        Ok(Merge {
            listed: Vec::new(alloc),
            heads,
            counts,
        })
    }

    /// The next class: a direct superclass of the newest that has one to give.
    fn next(&self, program: &Program) -> Option<ClassId>
        ensures { result ≡ next_of (supers_at program.now) (free self.now.counts.rows.items)
            (newest self.now.listed.items) }
    {
        let mut place = self.listed.len();
        while place > 0 {
            place -= 1;
            let next = self
                .counts
                .first_free(supers_of(program, self.listed[place]));
            if next.is_some() {
                return next;
            }
        }
        None
    }

    /// Lists a class that is free.
    fn advance(
        &mut self,
        program: &Program,
        class: ClassId,
        next: ClassId,
    ) -> Result<(), AllocError>
        requires free { count_at self.old.counts.rows.items next ≡ 0 }
        requires counted { Counted (lists_at program.now class)
            (newest self.old.listed.items) self.old.heads.items self.old.counts.rows.items }
        ensures listed { OnOk result
            (newest self.new.listed.items ≡ next ∷ newest self.old.listed.items) }
        ensures counted { OnOk result
            (Counted (lists_at program.now class)
            (next ∷ newest self.old.listed.items) self.new.heads.items self.new.counts.rows.items) }
    {
        self.listed.push(next)?;
        for place in 0..self.heads.len() {
            let list = list_at(program, class, place);
            let head = self.heads[place];
            let moved = move_head(list, next, head, &mut self.counts);
            self.heads[place] = moved;
        }
        self.counts.raise(next)?;
        Ok(())
    }

    /// Whether nothing is left of any list.
    fn is_whole(&self, program: &Program, class: ClassId) -> bool
        requires { Counted (lists_at program.now class)
            (newest self.now.listed.items) self.now.heads.items self.now.counts.rows.items }
        ensures { result ≡ all_listed (lists_at program.now class) (newest self.now.listed.items) }
    {
        for (place, head) in self.heads.iter().enumerate() {
            if *head < list_at(program, class, place).len() {
                return false;
            }
        }
        true
    }

    /// Lists classes until none is free, and at most `turns` of them.
    fn run(&mut self, program: &Program, class: ClassId, turns: usize) -> Result<(), AllocError>
        requires { Counted (lists_at program.now class)
            (newest self.old.listed.items) self.old.heads.items self.old.counts.rows.items }
        ensures listed { OnOk result
            (newest self.new.listed.items ≡ run (supers_at program.now)
            (lists_at program.now class) turns (newest self.old.listed.items)) }
        ensures counted { OnOk result
            (Counted (lists_at program.now class)
            (newest self.new.listed.items) self.new.heads.items self.new.counts.rows.items) }
    {
        for _turn in 0..turns {
            match self.next(program) {
                Some(next) => self.advance(program, class, next)?,
                None => return Ok(()),
            }
        }
        Ok(())
    }
}

/// What the merge lists after the class, where it lists all; `None` where classes are left, or
/// where the class itself stands behind another one.
pub(crate) fn merge_orders(
    alloc: Global,
    program: &Program,
    class: ClassId,
) -> Result<Option<Vec<ClassId>>, AllocError>
    ensures { IfOk result (λ answer. MatchOption answer
        (IsStuck (supers_at program.now) (order_at program.now) class)
        (λ order. IsMerged (supers_at program.now) (order_at program.now) class order.items)) }
{
    let Some(turns) = total_length(program, class) else {
        return Err(AllocError);
    };
    let mut merge = Merge::start(alloc, program, class)?;
    if merge.counts.get(class) != 0 {
        return Ok(None);
    }
    merge.advance(program, class, class)?;
    merge.run(program, class, turns)?;
    if !merge.is_whole(program, class) {
        return Ok(None);
    }
    let Merge { listed, .. } = merge;
    Ok(Some(listed))
}
