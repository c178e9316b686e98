//! The signature that lines state, or the first line that shows a fault and its first fault; and terms by their names.
use crate::samples::{PLUS, SEEDED};
use law_read::{ReadErr, read_sig, read_term, write_term};
use law_sig::{Sig, SortId, Text};
use law_types::{TypeErr, TypeKind, check_sig, raw_term, typed};
use std::alloc::{AllocError, Global};
use std::test::Fail;

/// Sorts 0, `N`, and 1, `B`.
const TWO_SORTS: &str = "\
signature 1
vars 2
size 3
width 2
budget 10
pairs 20
pools given
sort N
con Z
con S N
sort B
con F
con T
fun and B B -> B
match 0
case F = F
case T = #1
fun add N N -> N
match 0
case Z = #1
case S = S (add @0 #1)
fun low N -> B
body = T
explore and add
background and F B.0 = F
pool
values N Z (S Z)
values B F T
end
";

/// Sorts 0, `Nat`, and 1, `List`; the last rule takes the length of an item, not of the rest.
const WRONG_FIELD: &str = "\
signature 1
vars 1
size 3
width 1
budget 9
pairs 20
pools given
sort Nat
con Z
con S Nat
sort List
con Nil
con Cons Nat List
fun len List -> Nat
match 0
case Nil = Z
case Cons = S (len @0)
explore len
pool
values Nat Z
values List Nil
end
";

/// Version 3, with a weight for each symbol, and pools from a seed.
const WEIGHTS: &str = "\
signature 3
size 3
budget 10
pairs 20
pools seed 1 height 1 count 1
sort B 2 2
con 1 F
con 1 T
fun 1 and B B -> B
match 0
case F = F
case T = #1
explore and
end
";

/// The signature that a text states, or why it states none; `None` where it isn't read.
fn stated(alloc: Global, text: &[u8]) -> Option<Result<Sig, TypeErr>> {
    match read_sig(alloc, text) {
        Ok(raw) => Some(check_sig(alloc, &raw)),
        Err(_) => None,
    }
}

/// The signature of a text.
pub fn signature(alloc: Global, text: &str) -> Option<Sig> {
    match stated(alloc, text.as_bytes()) {
        Some(Ok(sig)) => Some(sig),
        _ => None,
    }
}

fn fault_in(stated: &Option<Result<Sig, TypeErr>>) -> Option<(u64, TypeKind)> {
    match stated {
        Some(Err(TypeErr::At { line, kind })) => Some((*line, *kind)),
        _ => None,
    }
}

/// The first line of a text that shows a fault, and the fault; `None` where it states a signature.
fn fault(alloc: Global, text: &[u8]) -> Option<(u64, TypeKind)> {
    fault_in(&stated(alloc, text))
}

/// The first sort is wanted, and the second is found.
const SECOND_FOUND: TypeKind = TypeKind::SortMismatch {
    wanted: SortId(0),
    found: SortId(1),
};

/// The second sort is wanted, and the first is found.
const FIRST_FOUND: TypeKind = TypeKind::SortMismatch {
    wanted: SortId(1),
    found: SortId(0),
};

/// A value of the first sort is wanted, and a function that gives one is found.
const FUNCTION_FOUND: TypeKind = TypeKind::SortMismatch {
    wanted: SortId(0),
    found: SortId(0),
};

/// What stands in a text in place of what, and the line that then shows a fault, with the fault.
type Row = (&'static str, &'static str, u64, TypeKind);

// In these tables each line shows a second fault of another kind, where its kind of line can, and the first is told.

const DECLARATIONS: &[Row] = &[
    ("vars 2", "vars 9", 2, TypeKind::SettingRange),
    ("size 3", "size 33", 3, TypeKind::SettingRange),
    ("width 2", "width 17", 4, TypeKind::SettingRange),
    ("width 2", "width 0", 4, TypeKind::SettingRange),
    ("budget 10", "budget 0", 5, TypeKind::SettingRange),
    ("pairs 20", "pairs 4097", 6, TypeKind::SettingRange),
    (
        "sort B\ncon F\n",
        "sort N\ncon F E\nsort E\ncon e E\n",
        11,
        TypeKind::NameTwice,
    ),
    (
        "sort B\ncon F\ncon T\n",
        "sort B\ncon F E\nsort E\ncon e E\n",
        11,
        TypeKind::EmptySort,
    ),
    ("con Z\n", "con Z N\n", 8, TypeKind::EmptySort),
    // a name that isn't a sort counts as one that has a value
    ("con Z\ncon S N\n", "con Z Nut\n", 9, TypeKind::UnknownSort),
    ("con F\n", "con Z Nut\n", 12, TypeKind::NameTwice),
    ("con F\n", "con F Nut\n", 12, TypeKind::UnknownSort),
    (
        "fun add N N -> N",
        "fun and Nut N -> N",
        18,
        TypeKind::NameTwice,
    ),
    (
        "fun add N N -> N",
        "fun add Nut N -> Not",
        18,
        TypeKind::UnknownSort,
    ),
    ("match 0\ncase Z", "match 7\ncase Z", 19, TypeKind::Arity),
    ("match 0\ncase Z = #1\n", "match 2\n", 19, TypeKind::Arity),
    ("case Z = #1\n", "", 19, TypeKind::CaseMissing),
];

const RULES: &[Row] = &[
    (
        "fun low",
        "case Zed = #9\nfun low",
        22,
        TypeKind::UnknownName,
    ),
    (
        "fun low",
        "case low = #9\nfun low",
        22,
        TypeKind::UnknownName,
    ),
    ("fun low", "case F = #9\nfun low", 22, SECOND_FOUND),
    ("fun low", "case and = #9\nfun low", 22, SECOND_FOUND),
    ("fun low", "case add = #9\nfun low", 22, FUNCTION_FOUND),
    ("fun low", "case S = #9\nfun low", 22, TypeKind::CaseTwice),
    ("case Z = #1", "case Z = #9", 20, TypeKind::Arity),
    ("S (add @0 #1)", "zip #9", 21, TypeKind::UnknownName),
    ("S (add @0 #1)", "S (low @0 @0)", 21, TypeKind::LaterCall),
    ("S (add @0 #1)", "and @0", 21, TypeKind::Arity),
    ("S (add @0 #1)", "add zip", 21, TypeKind::Arity),
    ("S (add @0 #1)", "and zip F", 21, SECOND_FOUND),
    ("S (add @0 #1)", "S T", 21, SECOND_FOUND),
    ("S (add @0 #1)", "S (add #0 zip)", 21, TypeKind::NotSmaller),
    ("S (add @0 #1)", "S (add @0 zip)", 21, TypeKind::UnknownName),
    (
        "match 0\ncase Z = #1\ncase S = S (add @0 #1)",
        "body = add #0 #9",
        19,
        TypeKind::NotSmaller,
    ),
    ("body = T", "body = @0", 23, TypeKind::Arity),
    (
        "fun add N N -> N\nmatch 0\ncase Z = #1\ncase S = S (add @0 #1)",
        "fun pick B N -> N\nbody = #1\nfun add N N -> N\nmatch 0\ncase Z = #1\ncase S = S (pick (add #0 #1) Z)",
        23,
        FIRST_FOUND,
    ),
];

/// Behind the functions.
const TAILS: &[Row] = &[
    (
        "explore and add",
        "explore and zip and",
        24,
        TypeKind::UnknownName,
    ),
    (
        "explore and add",
        "explore and and zip",
        24,
        TypeKind::NameTwice,
    ),
    (
        "and F B.0 = F",
        "and F Nut.9 = F",
        25,
        TypeKind::UnknownSort,
    ),
    ("and F B.0 = F", "Nut.9 = zip", 25, TypeKind::UnknownSort),
    ("and F B.0 = F", "N.2 = zip", 25, TypeKind::SettingRange),
    ("and F B.0 = F", "N.1 = S", 25, TypeKind::Arity),
    ("and F B.0 = F", "add B.9 Z = Z", 25, TypeKind::SettingRange),
    ("and F B.0 = F", "S B.2 = T", 25, TypeKind::SettingRange),
    (
        "and F B.0 = F",
        "and F zip = Nut.0",
        25,
        TypeKind::UnknownName,
    ),
    ("and F B.0 = F", "F = S zip", 25, TypeKind::UnknownName),
    ("and F B.0 = F", "F = Z", 25, FIRST_FOUND),
    ("and F B.0 = F", "Z = T", 25, SECOND_FOUND),
    ("values B F T\n", "", 26, TypeKind::Arity),
    ("values B F T", "values Nut F", 28, TypeKind::UnknownSort),
    ("values B F T", "values N Z", 28, FIRST_FOUND),
    ("values N Z (S Z)", "values B zip", 27, SECOND_FOUND),
    ("values B F T", "values B zip", 28, TypeKind::Arity),
    (
        "values B F T",
        "values B (and zip F) T",
        28,
        TypeKind::UnknownName,
    ),
    (
        "values N Z (S Z)",
        "values N Z (add Z)",
        27,
        TypeKind::UnknownName,
    ),
];

/// In version 3, with pools from a seed.
const LATER: &[Row] = &[
    ("height 1", "height 17", 5, TypeKind::SettingRange),
    ("count 1", "count 17", 5, TypeKind::SettingRange),
    // no value of `P` is lower than 2
    (
        "fun 1",
        "sort P 0 1\ncon 1 p B\nfun 1",
        5,
        TypeKind::SettingRange,
    ),
    ("sort B 2 2", "sort B 9 2", 6, TypeKind::SettingRange),
    ("sort B 2 2", "sort B 2 17", 6, TypeKind::SettingRange),
    (
        "fun 1",
        "sort B 9 2\ncon 1 G\nfun 1",
        9,
        TypeKind::NameTwice,
    ),
    (
        "fun 1",
        "sort E 9 2\ncon 1 e E\nfun 1",
        9,
        TypeKind::EmptySort,
    ),
    ("con 1 T", "con 5 F", 8, TypeKind::NameTwice),
    ("con 1 T", "con 5 T Nut", 8, TypeKind::UnknownSort),
    ("con 1 T", "con 5 T", 8, TypeKind::SettingRange),
    ("fun 1 and B B", "fun 5 F B B", 9, TypeKind::NameTwice),
    ("fun 1 and B B", "fun 5 and B Nut", 9, TypeKind::UnknownSort),
    ("fun 1 and B B", "fun 0 and B B", 9, TypeKind::SettingRange),
];

/// The place of the first row, from 0, whose fault isn't the first one that is found.
fn first_other(alloc: Global, text: &str, rows: &[Row]) -> Result<Option<usize>, AllocError> {
    for (at, (from, to, line, kind)) in rows.iter().enumerate() {
        let text = text.replacen(alloc, from, to, 1)?;
        if fault(alloc, text.as_bytes()) != Some((*line, *kind)) {
            return Ok(Some(at));
        }
    }
    Ok(None)
}

#[test]
fn first_faults(rt: HostRuntime) -> Result<(), Fail> {
    let alloc = rt.alloc();
    assert_eq!(rt; first_other(alloc, TWO_SORTS, DECLARATIONS)?, None);
    assert_eq!(rt; first_other(alloc, TWO_SORTS, RULES)?, None);
    assert_eq!(rt; first_other(alloc, TWO_SORTS, TAILS)?, None);
    assert_eq!(rt; first_other(alloc, WEIGHTS, LATER)?, None);
    assert_eq!(rt;
        first_other(alloc, WRONG_FIELD, &[("", "", 17, FIRST_FOUND)])?,
        None
    );
    Ok(())
}

/// A text of so many sorts, each with a constructor.
fn sorts(alloc: Global, count: u32, more: &str) -> Result<String, AllocError> {
    let mut text = String::from_str(
        alloc,
        "signature 1\nvars 0\nsize 1\nwidth 1\nbudget 9\npairs 0\npools seed 1 height 1 count 1\n",
    )?;
    for number in 0..count {
        text.push_str(format!(in alloc; "sort Q{number}\ncon C{number}\n")?.as_str())?;
    }
    text.push_str(more)?;
    text.push_str("explore\nend\n")?;
    Ok(text)
}

/// Two sorts with so many pools more, and then the last lines.
fn pools(alloc: Global, count: usize, last: &str) -> Result<String, AllocError> {
    let more = "pool\nvalues N Z Z\nvalues B F F\n".repeat(alloc, count)?;
    let lines = format!(in alloc; "{more}{last}end\n")?;
    TWO_SORTS.replacen(alloc, "end\n", lines.as_str(), 1)
}

/// 64 sorts and 16 pools are the most; the line of one more has another fault too.
#[test]
fn numbers_of_sorts_and_pools(rt: HostRuntime) -> Result<(), Fail> {
    let alloc = rt.alloc();
    let range = TypeKind::SettingRange;
    for (text, want) in [
        (sorts(alloc, 64, "")?, None),
        (sorts(alloc, 64, "sort Q0\ncon C\n")?, Some((136, range))),
        (pools(alloc, 15, "")?, None),
        (pools(alloc, 15, "pool\nvalues N Z\n")?, Some((74, range))),
    ] {
        assert_eq!(rt; fault(alloc, text.as_bytes()), want);
    }
    Ok(())
}

/// A text, and what stands in it in place of what.
const STATED: &[(&str, &str, &str)] = &[
    (PLUS, "", ""),
    (TWO_SORTS, "", ""),
    (WEIGHTS, "", ""),
    (SEEDED, "", ""),
    (WRONG_FIELD, "len @0", "len @1"),
    (
        WEIGHTS,
        "height 1 count 1\n",
        "height 2 count 1\nsort P 0 1\ncon 1 p B\n",
    ),
];

#[test]
fn texts_that_state_a_signature(rt: HostRuntime) -> Result<(), Fail> {
    for (text, from, to) in STATED {
        let text = text.replacen(rt.alloc(), from, to, 1)?;
        assert!(rt; signature(rt.alloc(), text.as_str()).is_some(), "{to}");
    }
    Ok(())
}

/// What is spelled of a term that was typed and copied; `None` where it isn't well-sorted.
fn spelled(alloc: Global, sig: &Sig, text: &str) -> Result<Option<Text>, ReadErr> {
    let raw = read_term(alloc, text.as_bytes())?;
    let Some(tree) = typed(alloc, sig, &raw)? else {
        return Ok(None);
    };
    let copy = tree.copy(alloc)?;
    let again = raw_term(alloc, sig, &copy)?;
    Ok(Some(write_term(alloc, &again)?))
}

/// Whether a term is well-sorted, and spelled as it was.
fn is_spelled_again(alloc: Global, sig: &Sig, text: &str) -> bool {
    match spelled(alloc, sig, text) {
        Ok(Some(again)) => again.as_slice() == text.as_bytes(),
        _ => false,
    }
}

/// Whether each of these is well-sorted; a variable may have any index outside of the explored terms.
const TERMS: &[(&str, bool)] = &[
    ("add N.0 N.7", true),
    ("low (add (S N.4294967295) Z)", true),
    ("add N.0", false),
    ("add N.0 B.0", false),
    ("add N.0 M.0", false),
    ("plus N.0 N.0", false),
    ("N", false),
];

/// The first of these of which it isn't so.
fn first_wrong(alloc: Global) -> Option<&'static str> {
    let Some(sig) = signature(alloc, TWO_SORTS) else {
        return Some("no signature");
    };
    for (text, want) in TERMS {
        if is_spelled_again(alloc, &sig, text) != *want {
            return Some(text);
        }
    }
    None
}

#[test]
fn terms_by_their_names(rt: HostRuntime) {
    assert!(rt; first_wrong(rt.alloc()).is_none());
}
