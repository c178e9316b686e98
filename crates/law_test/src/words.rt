ghost use Rattle.std.specs.Prelude.{◌≡◌, [], ◌∷◌, ◌++◌, IfOk, OnOk};
ghost use Rattle.law_test.specs.Words.{number_bytes, word};

use law_sig::{NoMemory, Tree};
use std::alloc::Global;

/// Adds a byte.
fn push_byte(made: &mut Vec<u8>, byte: u8) -> Result<(), NoMemory>
    ensures { OnOk result (made.new.items ≡ made.old.items ++ byte ∷ []) }
{
    match made.push(byte) {
        Ok(()) => Ok(()),
        Err(_) => Err(NoMemory),
    }
}

/// Adds a number, seven bits a byte, the lowest first (LEB128).
fn push_number(made: &mut Vec<u8>, number: u64) -> Result<(), NoMemory>
    ensures { OnOk result (made.new.items ≡ made.old.items ++ number_bytes number) }
{
    let mut rest = number;
    while rest >= 128 {
        push_byte(made, 128 + (rest % 128) as u8)?;
        rest /= 128;
    }
    push_byte(made, rest as u8)
}

/// Adds the word of a term.
fn push_word(made: &mut Vec<u8>, term: &Tree) -> Result<(), NoMemory>
    ensures { OnOk result (made.new.items ≡ made.old.items ++ word term.now) }
{
    match term {
        Tree::Var(sort, index) => {
            push_number(made, 2 * sort.0 as u64)?;
            push_number(made, *index as u64)
        }
        Tree::App(head, args) => {
            push_number(made, 2 * head.0 as u64 + 1)?;
            push_number(made, args.len() as u64)?;
            for arg in args.as_slice() {
                push_word(made, arg)?;
            }
            Ok(())
        }
    }
}

/// The word of a term, by which it is found. It takes no more room than its bytes.
pub fn word_of(alloc: Global, term: &Tree) -> Result<Vec<u8>, NoMemory>
    ensures { IfOk result (λ made. made.items ≡ word term.now) }
{
    let mut made = Vec::new(alloc);
    push_word(&mut made, term)?;
    made.shrink_to_fit();
    Ok(made)
}
