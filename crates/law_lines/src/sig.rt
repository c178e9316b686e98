ghost use Rattle.std.specs.Prelude.{◌≡◌, IfOk};
ghost use Rattle.law_lines.specs.Signature.{IsRawSig};

use crate::raw::RawLine;
use law_sig::{NoMemory, Seq};
use std::alloc::Global;
use std::marker::Model;

/// The lines of a signature text: they stand in order, and the grammar spells each.
#[derive(Debug, Drop)]
pub struct RawSig {
    lines: Seq<RawLine>,
}

impl Model for RawSig {
    ghost use Rattle.std.specs.Prelude.{List};
    ghost use Rattle.std.specs.Coded.{codes, coded_list};
    ghost use Rattle.law_lines.specs.declared.raw.RawLine.{RawLine};
    ghost use Rattle.law_lines.specs.contracts.raw.RawTerm as term;
    ghost use Rattle.law_lines.specs.Signature.{IsRawSig};

    ghost Value = { List RawLine };

    ghost coded = { Prim.hlevel (codes, term.the_row.coded) };

    ghost view = { λ sig. sig.lines };

    ghost invariant = { λ sig. IsRawSig sig.lines };
}

impl RawSig {
    /// The signature of these lines.
    pub fn build(lines: Seq<RawLine>) -> RawSig
        requires { IsRawSig lines }
        ensures { result ≡ lines }
    {
        RawSig { lines }
    }

    /// The lines, in order.
    pub fn lines(&self) -> &[RawLine]
        ensures same { result.now ≡ self.now }
        ensures signature { IsRawSig result.now }
    {
        self.lines.as_slice()
    }

    /// A signature of its own with the same lines.
    pub fn copy(&self, alloc: Global) -> Result<RawSig, NoMemory>
        ensures { IfOk result (λ sig. sig ≡ self.now) }
    {
        let mut lines = Seq::new(alloc);
        for line in self.lines() {
            lines.push(line.copy(alloc)?)?;
        }
        Ok(RawSig { lines })
    }
}
