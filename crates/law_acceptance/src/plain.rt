//! `plain`: the law lists of signatures, and why there is none.
use crate::program::answers;
use crate::samples::{AND, AND_2, AND_3, FIRST, NOT, PAIRS, PLUS, ROTATIONS, SEEDED};
use std::alloc::{AllocError, Global};
use std::test::Fail;

/// Whether `plain` prints the law list with these laws, of a signature that has something in place of something.
fn lists(
    alloc: Global,
    signature: &str,
    change: (&str, &str),
    pools: &str,
    laws: &str,
) -> Result<bool, AllocError> {
    let signature = signature.replacen(alloc, change.0, change.1, 1)?;
    let list = format!(in alloc; "lawlist 1\n{signature}{pools}{laws}end\n")?;
    answers(
        alloc,
        "plain",
        signature.as_str(),
        ("", ""),
        0,
        list.as_str(),
    )
}

const BOTH: &str = "pool\nvalues B F T\n";

const NOT_LAW: &str = "law 1 plain not (not B.0) = B.0\n";

const AND_LAWS: &str = "\
law 1 plain and B.0 B.0 = B.0
law 2 plain and B.1 B.0 = and B.0 B.1
law 3 plain and B.1 B.1 = B.1
";

const AND_LATER_LAWS: &str = "\
law 2 plain and B.0 B.0 = B.0
law 3 plain and B.1 B.0 = and B.0 B.1
law 4 plain and B.1 B.1 = B.1
";

const FIRST_LAWS: &str = "\
law 1 plain k B.0 B.0 = B.0
law 2 plain k B.0 B.1 = B.0
law 3 plain k B.1 B.0 = B.1
law 4 plain k B.1 B.1 = B.1
";

/// A signature, what stands in it in place of what, and its pools and laws.
type List = (
    &'static str,
    (&'static str, &'static str),
    &'static str,
    &'static str,
);

const LAWS: &[List] = &[
    (NOT, ("", ""), BOTH, NOT_LAW),
    (AND, ("", ""), BOTH, AND_LAWS),
    (AND_2, ("", ""), BOTH, AND_LAWS),
    (AND_3, ("", ""), BOTH, AND_LAWS),
    (AND_3, ("fun 1", "fun 2"), BOTH, ""),
    (FIRST, ("", ""), BOTH, FIRST_LAWS),
    (
        PLUS,
        ("", ""),
        "pool\nvalues Nat Z (S Z)\n",
        "law 1 plain plus Nat.1 Nat.0 = plus Nat.0 Nat.1\n",
    ),
    (
        AND,
        (
            "explore and\n",
            "explore and\nbackground and B.0 B.0 = B.0\n",
        ),
        BOTH,
        AND_LATER_LAWS,
    ),
    (
        PAIRS,
        ("", ""),
        "pool\nvalues B F T\nvalues P (Pair F F)\n",
        "",
    ),
];

const SIX_SORTS: &str = "\
signature 1
vars 1
size 1
width 4
budget 10
pairs 20
pools seed 1 height 1 count 1
sort Q0
con C0
sort Q1
con C1
sort Q2
con C2
sort Q3
con C3
sort Q4
con C4
sort Q5
con C5
explore
end
";

const SIX_POOLS: &str = "\
pool
values Q0 C0 C0 C0 C0
values Q1 C1 C1 C1 C1
values Q2 C2 C2 C2 C2
values Q3 C3 C3 C3 C3
values Q4 C4 C4 C4 C4
values Q5 C5 C5 C5 C5
";

/// The words of the generator choose a constructor each, and its fields from left to right.
const SEEDS: &[List] = &[
    (
        SEEDED,
        ("", ""),
        "pool\nvalues N (S (S Z)) Z\nvalues B F F\npool\nvalues N Z Z\nvalues B T F\n",
        NOT_LAW,
    ),
    (
        SEEDED,
        ("seed 1", "seed 2"),
        "pool\nvalues N (S Z) (S (S Z))\nvalues B F F\npool\nvalues N (S Z) Z\nvalues B F F\n",
        NOT_LAW,
    ),
    (
        SEEDED,
        ("seed 1", "seed 4"),
        "pool\nvalues N Z (S (S Z))\nvalues B T F\npool\nvalues N Z (S (S Z))\nvalues B F T\n",
        NOT_LAW,
    ),
    (SIX_SORTS, ("", ""), SIX_POOLS, ""),
];

/// Two sorts, and functions on lists and numbers, with an equation between what stands for `LEFT` and `RIGHT`.
const LISTS: &str = "\
signature 1
vars 0
size 1
width 1
budget 9
pairs 20
pools given
sort Nat
con Z
con S Nat
sort List
con Nil
con Cons Nat List
fun plus Nat Nat -> Nat
match 0
case Z = #1
case S = S (plus @0 #1)
fun append List List -> List
match 0
case Nil = #1
case Cons = Cons @0 (append @1 #1)
fun rev List -> List
match 0
case Nil = Nil
case Cons = append (rev @1) (Cons @0 Nil)
fun same Nat -> Nat
body = #0
fun twice Nat -> Nat
body = plus #0 #0
fun four Nat -> Nat
body = plus (plus #0 #0) (plus #0 #0)
fun pred Nat -> Nat
match 0
case Z = Z
case S = plus @0 @0
explore
background LEFT = RIGHT
pool
values Nat Z
values List Nil
end
";

/// The pools of these.
const NONE: &str = "pool\nvalues Nat Z\nvalues List Nil\n";

/// The place of the first of these, from 0, that isn't printed.
fn first_unlisted(alloc: Global, table: &[List]) -> Result<Option<usize>, AllocError> {
    for (at, (signature, change, pools, laws)) in table.iter().enumerate() {
        if !lists(alloc, signature, *change, pools, laws)? {
            return Ok(Some(at));
        }
    }
    Ok(None)
}

#[test]
fn law_lists(rt: HostRuntime) -> Result<(), Fail> {
    assert_eq!(rt; first_unlisted(rt.alloc(), LAWS)?, None);
    assert_eq!(rt; first_unlisted(rt.alloc(), SEEDS)?, None);
    Ok(())
}

/// A text, what stands in it in place of what, and the line that is then printed.
type Row = (&'static str, &'static str, &'static str, &'static str);

const UNREAD: &[Row] = &[
    ("", "", "", "line 1: Missing\n"),
    ("aaaa", "", "", "line 1: Missing\n"),
    ("signature 4\n", "", "", "line 1: Word\n"),
    (NOT, "vars 1", "vars  1", "line 2: Doubled\n"),
    (NOT, "vars 1", "vars 01", "line 2: Number\n"),
    (NOT, "vars 1", "size 3", "line 2: Word\n"),
    (NOT, "vars 1", "vars", "line 2: Missing\n"),
    (NOT, "vars 1", "vars\t1", "line 2: Byte\n"),
    (
        NOT,
        "sort B",
        "sort BBBBBBBBBBBBBBBBBBBBBBBBBBBBBBBBB",
        "line 8: TooLong\n",
    ),
    // a fault of form comes before every fault in what the lines state
    (NOT, "vars 1\nsize 3", "vars 9\nsize", "line 3: Missing\n"),
];

const UNSTATED: &[Row] = &[
    (
        PLUS,
        "S (plus @0 #1)",
        "S (plus #0 #1)",
        "line 14: NotSmaller\n",
    ),
    (
        PLUS,
        "plus Nat Nat -> Nat",
        "plus Nat Nut -> Nat",
        "line 11: UnknownSort\n",
    ),
    (
        PLUS,
        "S (plus @0 #1)",
        "S (pluz @0 #1)",
        "line 14: UnknownName\n",
    ),
    (PLUS, "con S Nat", "con Z Nat", "line 10: NameTwice\n"),
    (PLUS, "S (plus @0 #1)", "S (plus @0)", "line 14: Arity\n"),
    (PLUS, "case Z = #1\n", "", "line 12: CaseMissing\n"),
    (
        PLUS,
        "explore plus",
        "case Z = #1\nexplore plus",
        "line 15: CaseTwice\n",
    ),
    (PLUS, "con Z\n", "con Z Nat\n", "line 8: EmptySort\n"),
    (PLUS, "width 2", "width 0", "line 4: SettingRange\n"),
    (
        LISTS,
        "(append @1 #1)",
        "(append @0 #1)",
        "line 21: SortMismatch\n",
    ),
    (
        LISTS,
        "S (plus @0 #1)",
        "S (same Nil)",
        "line 17: LaterCall\n",
    ),
    (AND_3, "fun 1", "fun 5", "line 9: SettingRange\n"),
];

/// A side of the background is looked at before every term of the universe.
const OVER: &[Row] = &[
    (PLUS, "budget 3", "budget 2", "over 0 1 plus Nat.0 Nat.0\n"),
    (
        PLUS,
        "explore plus\n",
        "explore plus\nbackground plus (S (S Nat.0)) Nat.1 = Nat.1\n",
        "over 0 0 plus (S (S Nat.0)) Nat.1\n",
    ),
];

/// The one test at which the variables read the places 1, 2 and 1 is 11, of 18 for each pool.
const PLACES: &str = "\
signature 2
size 1
budget 9
pairs 20
pools given
sort A 1 2
con a0
con a1
sort B 2 3
con b0
con b1
con b2
fun h B -> A
match 0
case b0 = a0
case b1 = a1
case b2 = a0
fun g B B -> A
match 0
case b0 = a0
case b1 = a0
case b2 = h #1
fun f A B B -> A
match 0
case a0 = a0
case a1 = g #1 #2
explore
background f A.0 B.0 B.1 = a0
pool
values A a0 a1
values B b0 b1 b2
end
";

const BACKGROUND: &[Row] = &[
    (
        AND,
        "explore and\n",
        "explore and\nbackground and B.0 B.1 = B.1\n",
        "background 1 fails at 2\n",
    ),
    (
        AND,
        "explore and\n",
        "explore and\nbackground and B.0 B.0 = B.0\nbackground B.1 = and B.0 B.1\n",
        "background 2 fails at 2\n",
    ),
    (PLACES, "", "", "background 1 fails at 11\n"),
    (
        PLACES,
        "pool\n",
        "pool\nvalues A a0 a0\nvalues B b0 b1 b2\npool\n",
        "background 1 fails at 29\n",
    ),
];

/// A value of `A3` has 585 nodes, and one of `A4` has 4,681.
const TREES: &str = "\
signature 1
vars 0
size 1
width 1
budget 10
pairs 20
pools seed 1 height 5 count 1
sort A0
con a0
sort A1
con a1 A0 A0 A0 A0 A0 A0 A0 A0
sort A2
con a2 A1 A1 A1 A1 A1 A1 A1 A1
sort A3
con a3 A2 A2 A2 A2 A2 A2 A2 A2
sort A4
con a4 A3 A3 A3 A3 A3 A3 A3 A3
explore
end
";

/// With six sorts there are 4^6 assignments, which are just few enough.
const LIMITS: &[Row] = &[
    (
        SIX_SORTS,
        "explore",
        "sort Q6\ncon C6\nexplore",
        "limit Assignments\n",
    ),
    (TREES, "", "", "limit Value\n"),
    (ROTATIONS, "size 3", "size 14", "limit Terms\n"),
    (ROTATIONS, "size 3", "size 32", "limit Terms\n"),
];

/// The place of the first row, from 0, to which the answer is another one than its line with this code.
fn first_other(alloc: Global, code: u8, rows: &[Row]) -> Result<Option<usize>, AllocError> {
    for (at, (text, from, to, line)) in rows.iter().enumerate() {
        if !answers(alloc, "plain", text, (from, to), code, line)? {
            return Ok(Some(at));
        }
    }
    Ok(None)
}

#[test]
fn refusals(rt: HostRuntime) -> Result<(), Fail> {
    assert_eq!(rt; first_other(rt.alloc(), 3, UNREAD)?, None);
    assert_eq!(rt; first_other(rt.alloc(), 3, UNSTATED)?, None);
    assert_eq!(rt; first_other(rt.alloc(), 5, OVER)?, None);
    assert_eq!(rt; first_other(rt.alloc(), 6, BACKGROUND)?, None);
    assert_eq!(rt; first_other(rt.alloc(), 4, LIMITS)?, None);
    Ok(())
}

/// Whether a term has this value within a budget, and none within one step less.
fn costs(
    alloc: Global,
    term: &str,
    value: &str,
    enough: &str,
    less: &str,
) -> Result<bool, AllocError> {
    let equation = format!(in alloc; "{term} = {value}")?;
    let line = format!(in alloc; "over 0 0 {term}\n")?;
    let text = LISTS.replacen(alloc, "LEFT = RIGHT", equation.as_str(), 1)?;
    let list = lists(alloc, text.as_str(), ("budget 9", enough), NONE, "")?;
    let short = answers(
        alloc,
        "plain",
        text.as_str(),
        ("budget 9", less),
        5,
        line.as_str(),
    )?;
    Ok(list && short)
}

const STEPS: &[(&str, &str, &str, &str)] = &[
    ("plus (S Z) Z", "S Z", "budget 3", "budget 2"),
    ("twice (S Z)", "S (S Z)", "budget 4", "budget 3"),
    ("four (S Z)", "S (S (S (S Z)))", "budget 12", "budget 11"),
    ("pred Z", "Z", "budget 2", "budget 1"),
    ("pred (S (S Z))", "S (S Z)", "budget 4", "budget 3"),
    (
        "rev (Cons Z (Cons (S Z) (Cons Z (Cons (S (S Z)) Nil))))",
        "Cons (S (S Z)) (Cons Z (Cons (S Z) (Cons Z Nil)))",
        "budget 30",
        "budget 29",
    ),
];

/// Making a constructor and calling a function cost one step each.
#[test]
fn steps_of_applications(rt: HostRuntime) -> Result<(), Fail> {
    for (term, value, enough, less) in STEPS {
        assert!(rt; costs(rt.alloc(), term, value, enough, less)?, "{term}");
    }
    let text = LISTS.replacen(rt.alloc(), "budget 9", "budget 1", 1)?;
    for equation in ["S Z = S Z", "same (S Z) = S Z"] {
        let change = ("LEFT = RIGHT", equation);
        assert!(rt;
            lists(rt.alloc(), text.as_str(), change, NONE, "")?,
            "{equation}"
        );
    }
    Ok(())
}
