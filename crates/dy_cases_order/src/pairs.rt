//! The order of methods on two of four classes, by a look at all pairs.

/// Which of four classes is above which: `above[i][j]` says that `j` is above `i`. The class 4 is
/// `<object>`.
pub(crate) type Above = [[bool; 4]; 4];

/// The classes of a method's parameters, or of two arguments.
pub(crate) type Pair = (u32, u32);

pub(crate) fn is_at_or_below(above: &Above, lower: u32, upper: u32) -> bool {
    lower == upper
        || upper == 4
        || match above.get(lower as usize) {
            Some(uppers) => uppers.get(upper as usize).copied().unwrap_or(false),
            None => false,
        }
}

// Whether a class is at least as specific as another, for an argument that is an instance of both:
// of unrelated classes the argument's own one is first, and else the greater number.
fn is_as_specific(above: &Above, arg: u32, class: u32, other: u32) -> bool {
    if is_at_or_below(above, class, other) {
        return true;
    }
    if is_at_or_below(above, other, class) || other == arg {
        return false;
    }
    class == arg || class > other
}

fn all_as_specific(above: &Above, args: Pair, method: Pair, other: Pair) -> bool {
    is_as_specific(above, args.0, method.0, other.0)
        && is_as_specific(above, args.1, method.1, other.1)
}

fn comes_before(above: &Above, args: Pair, method: Pair, other: Pair) -> bool {
    all_as_specific(above, args, method, other) && !all_as_specific(above, args, other, method)
}

fn applies(above: &Above, args: Pair, method: Pair) -> bool {
    is_at_or_below(above, args.0, method.0) && is_at_or_below(above, args.1, method.1)
}

fn method_at(methods: &[Pair], row: u32) -> Pair {
    methods.get(row as usize).copied().unwrap_or((9, 9))
}

// Whether a method comes before all others of these, but for the first few.
fn leads(
    above: &Above,
    args: Pair,
    methods: &[Pair],
    row: u32,
    others: &[u32],
    few: usize,
) -> bool {
    let method = method_at(methods, row);
    others.iter().skip(few).all(|other| {
        *other == row || comes_before(above, args, method, method_at(methods, *other))
    })
}

fn count_in(rows: &[u32], row: u32) -> usize {
    rows.iter().filter(|other| **other == row).count()
}

// Whether each applicable method is there once, and no other.
fn is_whole(above: &Above, args: Pair, methods: &[Pair], first: &[u32], rest: &[u32]) -> bool {
    let mut row = 0u32;
    for method in methods {
        let count = count_in(first, row).saturating_add(count_in(rest, row));
        if count != usize::from(applies(above, args, *method)) {
            return false;
        }
        row = row.saturating_add(1);
    }
    true
}

/// Whether these are the rows of the methods that are sorted, and of those that remain.
pub(crate) fn is_answer(
    above: &Above,
    args: Pair,
    methods: &[Pair],
    first: &[u32],
    rest: &[u32],
) -> bool {
    for (place, row) in first.iter().enumerate() {
        if !leads(above, args, methods, *row, first, place)
            || !leads(above, args, methods, *row, rest, 0)
        {
            return false;
        }
    }
    let mut least = 0;
    for row in rest {
        if *row < least || leads(above, args, methods, *row, rest, 0) {
            return false;
        }
        least = *row;
    }
    is_whole(above, args, methods, first, rest)
}
