//! `check`: the certificates that are valid, and the first rule that fails or the first evaluation that is over.
use crate::program::answers;
use crate::samples::{
    AND_2_CERT, AND_3_CERT, AND_CERT, CONSTANT_CERT, Cert, FIRST_CERT, MOVED_CERT, NOT, NOT_CERT,
    ONE_VALUE_CERT, PAIRS_CERT, PLUS_CERT, ROTATIONS_CERT, SEEDED_CERT, text_of,
};
use std::alloc::{AllocError, Global};
use std::test::Fail;

/// A certificate, what stands in it in place of what, and what is then printed.
type Row = (Cert, &'static str, &'static str, &'static str);

const AND_YES: &str = "\
yes laws 2 live 3 moved 3 killed 0
law 1 saturated and B.0 B.0 = B.0
law 2 saturated and B.1 B.0 = and B.0 B.1
";

const NOT_YES: &str = "\
yes laws 1 live 2 moved 0 killed 1
law 1 saturated not (not B.0) = B.0
";

const NOT_YES_TWICE: &str = "\
yes laws 2 live 2 moved 0 killed 1
law 1 saturated not (not B.0) = B.0
law 2 aside not (not B.0) = B.0
";

const FIRST_YES: &str = "\
yes laws 1 live 2 moved 0 killed 1
law 1 saturated k B.0 B.1 = B.0
";

const ROTATIONS_YES: &str = "\
yes laws 2 live 3 moved 0 killed 4
law 1 saturated f (f M.0) = g M.0
law 3 saturated f (g M.0) = M.0
";

const ONE_VALUE_YES: &str = "\
yes laws 1 live 1 moved 1 killed 1
law 1 saturated U.1 = U.0
";

const PLUS_YES: &str = "\
yes laws 1 live 5 moved 1 killed 0
law 1 saturated plus Nat.1 Nat.0 = plus Nat.0 Nat.1
";

const CONSTANT_YES: &str = "\
yes laws 1 live 1 moved 1 killed 2
law 1 saturated U.1 = U.0
";

const MOVED_YES: &str = "\
yes laws 1 live 1 moved 3 killed 0
law 1 saturated U.1 = U.0
";

const SEEDED_YES: &str = "\
yes laws 1 live 5 moved 0 killed 1
law 1 saturated not (not B.0) = B.0
";

const PAIRS_YES: &str = "\
yes laws 0 live 6 moved 0 killed 0
";

const VALID: &[Row] = &[
    (NOT_CERT, "", "", NOT_YES),
    (AND_CERT, "", "", AND_YES),
    (AND_2_CERT, "", "", AND_YES),
    (AND_3_CERT, "", "", AND_YES),
    (FIRST_CERT, "", "", FIRST_YES),
    (ROTATIONS_CERT, "", "", ROTATIONS_YES),
    (ONE_VALUE_CERT, "", "", ONE_VALUE_YES),
    (PLUS_CERT, "", "", PLUS_YES),
    (CONSTANT_CERT, "", "", CONSTANT_YES),
    (MOVED_CERT, "", "", MOVED_YES),
    (SEEDED_CERT, "", "", SEEDED_YES),
    (PAIRS_CERT, "", "", PAIRS_YES),
    // leaves may stand in any order
    (PAIRS_CERT, "leaf 3\nleaf 4", "leaf 4\nleaf 3", PAIRS_YES),
    // laws and lemmas may stand behind the last entry; a lemma needs no values, and may have any variables
    (
        NOT_CERT,
        "tree B",
        "law 2 aside not (not B.0) = B.0\ntree B",
        NOT_YES_TWICE,
    ),
    (
        NOT_CERT,
        "tree B",
        "lemma 2 B.0 = not (not B.0)\nstep - 1 rl B.0 B.0\ntree B",
        NOT_YES,
    ),
    (
        SEEDED_CERT,
        "tree N",
        "lemma 2 zero (S N.9) = zero (S N.9)\ntree N",
        SEEDED_YES,
    ),
    (
        PLUS_CERT,
        "tree Nat",
        "lemma 2 plus (S (S Nat.0)) Nat.1 = plus (S (S Nat.0)) Nat.1\ntree Nat",
        PLUS_YES,
    ),
];

const UNREAD: &[Row] = &[
    (
        NOT_CERT,
        "leaf 2\nend\n",
        "leaf 2\n",
        "line 35: Certificate\n",
    ),
    (
        NOT_CERT,
        "leaf 2\nend\n",
        "leaf 2\nend",
        "line 35: Certificate\n",
    ),
    (
        NOT_CERT,
        "leaf 2\nend\n",
        "leaf 2\nend\nend\n",
        "line 36: Certificate\n",
    ),
    (
        AND_CERT,
        "leaf 3\nend\n",
        "leaf 3\nend\nend\n",
        "line 43: Certificate\n",
    ),
    (NOT_CERT, "vars 1", "vars 01", "line 3: Certificate\n"),
    (NOT_CERT, "saturated", "plain", "line 26: Certificate\n"),
    (NOT_CERT, "split 0 2", "split 0 1", "line 30: Certificate\n"),
    // a fault of form comes before every rule, and a later one counts for nothing
    (
        NOT_CERT,
        "width 2\n",
        "width 0\nwidth 0\n",
        "line 6: Certificate\n",
    ),
];

const WRONG_HEADS: &[Row] = &[
    (AND_CERT, "width 2", "width 0", "no V1 0\n"),
    (AND_2_CERT, "sort B 2 2", "sort B 2 17", "no V1 0\n"),
    (AND_3_CERT, "fun 1", "fun 5", "no V1 0\n"),
    (SEEDED_CERT, "height 3", "height 17", "no V1 0\n"),
    (
        AND_CERT,
        "end\npool\nvalues B F T",
        "end\npool\nvalues B T F",
        "no V2 0\n",
    ),
    (
        PAIRS_CERT,
        "end\npool\nvalues B F T",
        "end\npool\nvalues B F (T F)",
        "no V2 0\n",
    ),
    (SEEDED_CERT, "seed 1", "seed 2", "no V2 0\n"),
    (SEEDED_CERT, "values B T F", "values B T T", "no V2 0\n"),
    (SEEDED_CERT, "values B F F", "values B F F F", "no V2 0\n"),
    (SEEDED_CERT, "values B F F\n", "", "no V2 0\n"),
    (
        SEEDED_CERT,
        "pool\nvalues N Z Z\nvalues B T F\n",
        "",
        "no V2 0\n",
    ),
    (
        SEEDED_CERT,
        "spread N.0",
        "pool\nvalues N Z Z\nvalues B F F\nspread N.0",
        "no V2 0\n",
    ),
    (
        PLUS_CERT,
        "explore plus\n",
        "explore plus\nbackground plus Nat.0 Nat.1 = Nat.0\n",
        "no V3 0\n",
    ),
];

const WRONG_ENTRIES: &[Row] = &[
    (
        AND_CERT,
        "saturated and B.0 B.0",
        "saturated and B.0 B.1",
        "no V3 5\n",
    ),
    (
        NOT_CERT,
        "tree B",
        "law 1 aside not (not B.0) = B.0\ntree B",
        "no V3 7\n",
    ),
    (
        NOT_CERT,
        "tree B",
        "law 3 aside not (not B.0) = B.0\ntree B",
        "no V3 7\n",
    ),
    (
        NOT_CERT,
        "tree B",
        "law 2 aside not B.0 = B.0\ntree B",
        "no V3 7\n",
    ),
    (NOT_CERT, "law 1 saturated", "lemma 1", "no V4 5\n"),
    // steps that go right by an equation that comes later
    (
        ROTATIONS_CERT,
        "step - 1 rl M.0 (f M.0)\nstep 0 1 lr M.0 M.0\n",
        "step 0 4 rl M.0 M.0\nstep - 4 lr M.0 (g M.0)\n",
        "no V4 9\n",
    ),
    (AND_CERT, "spread and B.0 B.0\n", "", "no V5 5\n"),
    (AND_3_CERT, "fun 1", "fun 2", "no V5 4\n"),
    (
        NOT_CERT,
        "killed not (not B.0) = B.0\nstep - 1 lr B.0 B.0\n",
        "",
        "no V5 6\n",
    ),
    (
        FIRST_CERT,
        "killed k B.0 B.1",
        "killed k B.0 B.0",
        "no V6 5\n",
    ),
    (
        AND_CERT,
        "moved and B.0 B.0 = B.0",
        "moved and B.0 B.0 = and B.0 B.1",
        "no V7 6\n",
    ),
    (AND_CERT, "live and B.0 B.1\n", "", "no V7 8\n"),
    (AND_2_CERT, "sort B 2 2", "sort B 3 2", "no V7 4\n"),
    (NOT_CERT, "live not B.0\n", "", "no V7 5\n"),
    // behind the last entry nothing is expected
    (NOT_CERT, "tree B", "spread B.0\ntree B", "no V5 7\n"),
    (NOT_CERT, "tree B", "live B.0\ntree B", "no V5 7\n"),
    (NOT_CERT, "tree B", "killed B.0 = B.0\ntree B", "no V5 7\n"),
    (NOT_CERT, "tree B", "moved B.0 = B.0\ntree B", "no V5 7\n"),
];

/// The equation by which a schema is killed.
const TWICE: &str = "not (not B.0) = B.0";

/// Terms that aren't well-sorted, and terms that aren't of the universe.
const WRONG_TERMS: &[Row] = &[
    (SEEDED_CERT, TWICE, "not (not B.0) = N.0", "no V3 9\n"),
    (SEEDED_CERT, TWICE, "not (not N.0) = B.0", "no V3 9\n"),
    (SEEDED_CERT, TWICE, "not (not B.0 B.0) = B.0", "no V3 9\n"),
    (SEEDED_CERT, TWICE, "not (note B.0) = B.0", "no V3 9\n"),
    (SEEDED_CERT, TWICE, "not (not C.0) = B.0", "no V3 9\n"),
    // well-sorted, but with a further variable, too large, or with a symbol that isn't explored
    (SEEDED_CERT, TWICE, "not (not B.1) = B.1", "no V3 9\n"),
    (
        SEEDED_CERT,
        TWICE,
        "not (not (not (not B.0))) = B.0",
        "no V3 9\n",
    ),
    (SEEDED_CERT, TWICE, "not F = T", "no V3 9\n"),
    (
        ROTATIONS_CERT,
        "lemma 2 g (f M.0)",
        "lemma 2 g (f N.0)",
        "no V4 9\n",
    ),
    (
        ROTATIONS_CERT,
        "lemma 2 g (f M.0)",
        "lemma 2 g f",
        "no V4 9\n",
    ),
    (
        SEEDED_CERT,
        "tree N",
        "lemma 2 N.0 = B.0\ntree N",
        "no V4 13\n",
    ),
    (
        SEEDED_CERT,
        "spread zero N.0",
        "spread zero B.0",
        "no V5 7\n",
    ),
    (SEEDED_CERT, "spread not B.0", "spread not C.0", "no V5 5\n"),
    (SEEDED_CERT, "live zero N.0", "live zero B.0", "no V7 8\n"),
    (SEEDED_CERT, "live zero N.0", "live zer N.0", "no V7 8\n"),
    (
        SEEDED_CERT,
        "killed not (not B.0)",
        "killed not (not N.0)",
        "no V5 10\n",
    ),
    (
        SEEDED_CERT,
        "killed not (not B.0) = B.0",
        "killed not (not B.0) = N.0",
        "no V6 10\n",
    ),
    (
        SEEDED_CERT,
        "killed not (not B.0) = B.0",
        "killed not (not B.0) = not N.0",
        "no V6 10\n",
    ),
    (SEEDED_CERT, "lr B.0 B.0", "lr B.0 N.0", "no V6 10\n"),
    (SEEDED_CERT, "lr B.0 B.0", "lr B.0 (not N.0)", "no V6 10\n"),
    (SEEDED_CERT, "lr B.0 B.0", "lr B.0 Q", "no V6 10\n"),
    (SEEDED_CERT, "lr B.0 B.0", "lr N.0 N.0", "no V6 10\n"),
    (SEEDED_CERT, "lr B.0 B.0", "lr Q.0 B.0", "no V6 10\n"),
    (
        AND_CERT,
        "moved and B.1 B.0 = and B.0 B.1",
        "moved and B.1 = and B.0 B.1",
        "no V7 9\n",
    ),
    (
        AND_CERT,
        "moved and B.1 B.0 = and B.0 B.1",
        "moved and B.1 B.0 = and B.0",
        "no V7 9\n",
    ),
    (
        AND_CERT,
        "moved and B.1 B.0 = and B.0 B.1",
        "moved and B.1 B.0 = and B.0 C.1",
        "no V7 9\n",
    ),
];

/// The tree of the first sort.
const FIRST_TREE: &str = "tree N\nclass 1\nleaf 1\n";

const WRONG_TREES: &[Row] = &[
    // a tree is absent, further, of another sort or of none
    (SEEDED_CERT, FIRST_TREE, "", "no V8 13\n"),
    (
        PAIRS_CERT,
        "tree P\nclass 2\nsplit 1 4\nleaf 3\nleaf 4\nleaf 5\nleaf 6\n",
        "",
        "no V8 10\n",
    ),
    (
        SEEDED_CERT,
        "tree B",
        "tree N\nclass 1\nleaf 1\ntree B",
        "no V8 14\n",
    ),
    (
        PAIRS_CERT,
        "leaf 6\n",
        "leaf 6\ntree P\nclass 2\nleaf 3\n",
        "no V8 11\n",
    ),
    (SEEDED_CERT, "tree N", "tree B", "no V8 13\n"),
    (SEEDED_CERT, "tree N", "tree Q", "no V8 13\n"),
    // classes and leaves by their numbers
    (
        SEEDED_CERT,
        FIRST_TREE,
        "tree N\nclass 0\nleaf 1\n",
        "no V8 13\n",
    ),
    (
        SEEDED_CERT,
        FIRST_TREE,
        "tree N\nclass 2\nleaf 1\n",
        "no V8 13\n",
    ),
    (
        SEEDED_CERT,
        FIRST_TREE,
        "tree N\nclass 1 1\nleaf 1\n",
        "no V8 13\n",
    ),
    (
        SEEDED_CERT,
        FIRST_TREE,
        "tree N\nclass 1\nleaf 0\n",
        "no V9 13\n",
    ),
    (
        SEEDED_CERT,
        FIRST_TREE,
        "tree N\nclass 1\nleaf 2\n",
        "no V9 13\n",
    ),
    (AND_CERT, "class 1 2", "class 1", "no V8 11\n"),
    (AND_CERT, "class 1 2", "class 2 1", "no V8 11\n"),
    (AND_CERT, "class 1 2", "class 1 0", "no V8 11\n"),
    (AND_CERT, "leaf 3", "leaf 2", "no V9 11\n"),
    (AND_CERT, "leaf 3", "leaf 0", "no V9 11\n"),
    // a test that there isn't or that isn't flat, and one that tells apart too little or too much
    (SEEDED_CERT, "split 0 2", "split 8 2", "no V8 14\n"),
    (SEEDED_CERT, "split 0 2", "split 3 2", "no V8 14\n"),
    (
        SEEDED_CERT,
        "split 0 2\nsplit 1 2",
        "split 0 2\nsplit 0 2",
        "no V8 14\n",
    ),
    (AND_CERT, "split 1 2\nleaf", "split 4 2\nleaf", "no V9 11\n"),
    (AND_CERT, "split 2 2", "split 0 2", "no V9 11\n"),
    (FIRST_CERT, "split 1 2", "split 3 2", "no V9 6\n"),
    (PAIRS_CERT, "split 1 4", "split 4 4", "no V9 10\n"),
    (PAIRS_CERT, "split 1 4", "split 0 4", "no V9 10\n"),
];

/// Sides of the background, of a law, of a killed and of a moved term; schemas and live terms below a split.
const OVER: &[Row] = &[
    (
        PLUS_CERT,
        "explore plus\n",
        "explore plus\nbackground plus (S (S Nat.0)) Nat.1 = Nat.1\n",
        "over 0 0 plus (S (S Nat.0)) Nat.1\n",
    ),
    (
        PLUS_CERT,
        "explore plus\n",
        "explore plus\nbackground Nat.0 = plus (S (S Nat.0)) Nat.1\n",
        "over 0 0 plus (S (S Nat.0)) Nat.1\n",
    ),
    (
        PLUS_CERT,
        "budget 3",
        "budget 2",
        "over 7 1 plus Nat.0 Nat.1\n",
    ),
    (
        NOT_CERT,
        "budget 10",
        "budget 1",
        "over 5 0 not (not B.0)\n",
    ),
    (CONSTANT_CERT, "budget 2", "budget 1", "over 6 0 f U.0\n"),
    (MOVED_CERT, "budget 2", "budget 1", "over 8 0 f U.0\n"),
    (SEEDED_CERT, "budget 4", "budget 3", "over 14 0 zero N.0\n"),
    (
        PAIRS_CERT,
        "budget 4",
        "budget 3",
        "over 10 1 pair B.0 B.0\n",
    ),
];

/// The place of the first row, from 0, to which the answer is another one than its text with this code.
fn first_other(alloc: Global, code: u8, rows: &[Row]) -> Result<Option<usize>, AllocError> {
    for (at, (cert, from, to, text)) in rows.iter().enumerate() {
        let input = text_of(alloc, *cert)?;
        if !answers(alloc, "check", input.as_str(), (from, to), code, text)? {
            return Ok(Some(at));
        }
    }
    Ok(None)
}

#[test]
fn certificates_that_are_valid(rt: HostRuntime) -> Result<(), Fail> {
    assert_eq!(rt; first_other(rt.alloc(), 0, VALID)?, None);
    Ok(())
}

#[test]
fn texts_that_are_no_certificate(rt: HostRuntime) -> Result<(), Fail> {
    assert_eq!(rt; first_other(rt.alloc(), 3, UNREAD)?, None);
    Ok(())
}

#[test]
fn heads_that_are_refused(rt: HostRuntime) -> Result<(), Fail> {
    assert_eq!(rt; first_other(rt.alloc(), 1, WRONG_HEADS)?, None);
    Ok(())
}

#[test]
fn entries_that_are_refused(rt: HostRuntime) -> Result<(), Fail> {
    assert_eq!(rt; first_other(rt.alloc(), 1, WRONG_ENTRIES)?, None);
    Ok(())
}

#[test]
fn terms_that_are_refused(rt: HostRuntime) -> Result<(), Fail> {
    assert_eq!(rt; first_other(rt.alloc(), 1, WRONG_TERMS)?, None);
    Ok(())
}

#[test]
fn trees_that_are_refused(rt: HostRuntime) -> Result<(), Fail> {
    assert_eq!(rt; first_other(rt.alloc(), 1, WRONG_TREES)?, None);
    Ok(())
}

#[test]
fn evaluations_that_are_over(rt: HostRuntime) -> Result<(), Fail> {
    assert_eq!(rt; first_other(rt.alloc(), 5, OVER)?, None);
    Ok(())
}

#[test]
fn other_texts(rt: HostRuntime) -> Result<(), Fail> {
    for text in ["", NOT] {
        assert!(rt;
            answers(
                rt.alloc(),
                "check",
                text,
                ("", ""),
                3,
                "line 1: Certificate\n"
            )?
        );
    }
    Ok(())
}
