//! How many terms there are to explore, and the first places of classes.
use crate::samples::PLUS;
use crate::types::signature;
use law_explore::first_same;
use std::alloc::Global;
use std::test::Fail;

/// Whether addition has four assignments and six terms.
fn is_counted(alloc: Global) -> bool {
    match signature(alloc, PLUS) {
        Some(sig) => {
            sig.assignments() == Some(4)
                && sig.terms_up_to(alloc, 6) == Ok(Some(6))
                && sig.terms_up_to(alloc, 5) == Ok(None)
        }
        None => false,
    }
}

#[test]
fn terms_are_counted(rt: HostRuntime) {
    assert!(rt; is_counted(rt.alloc()));
}

#[test]
fn a_class_has_one_first_place(rt: HostRuntime) -> Result<(), Fail> {
    let alloc = rt.alloc();
    let classes = [0usize, 1, 0, 2, 1, 0].to_vec(alloc)?;
    assert_eq!(rt;
        first_same(alloc, classes)?.as_slice(),
        [0usize, 1, 0, 3, 1, 0].as_slice()
    );
    Ok(())
}
