ghost use Rattle.std.specs.Prelude.{◌≡◌, MatchOption};
ghost use Rattle.law_lines.specs.Pieces.{IsNext, IsAtEnd};

use crate::split::first_piece;
use law_lines::{Span, Token};
use std::marker::Model;

/// A line that is gone through piece by piece.
#[derive(Debug, Drop)]
pub struct Line<'t> {
    rest: &'t [u8],
    at: usize,
}

impl<'t> Model for Line<'t> {
    ghost use Rattle.std.specs.Prelude.{◌+◌, ◌<◌, ◌^◌, length};
    ghost use Rattle.law_lines.specs.Pieces.{Place};

    ghost Value = { Place };

    ghost view = { λ line. record { left = line.rest.now; at = line.at } };

    ghost invariant = { λ line. line.at + length line.rest.now < 2 ^ 64 };
}

impl<'t> Line<'t> {
    /// The whole line, before its first piece.
    pub fn new(bytes: &'t [u8]) -> Line<'t>
        ensures whole { result.left ≡ bytes.now }
        ensures start { result.at ≡ 0 }
    {
        Line { rest: bytes, at: 0 }
    }

    /// The next piece and where it stands; `None` exactly at the end of the line.
    pub fn next(&mut self) -> Option<(Token<'t>, Span)>
        ensures { MatchOption result (IsAtEnd self.old self.new) (λ found. IsNext self.old self.new found.0 found.1) }
    {
        let (token, rest) = first_piece(self.rest)?;
        let start = self.at;
        let end = start + (self.rest.len() - rest.len());
        *self = Line { rest, at: end };
        Some((token, Span { start, end }))
    }
}
