//! Comments (C11 6.4.9).
ghost use Rattle.std.specs.Prelude.{◌≡◌, ◌≤◌, length, slice_index};
ghost use Rattle.cpc_base.specs.declared.stop.Dialect.{Dialect};
ghost use Rattle.cpc_lexer.specs.Fronts.{IsFront};

use crate::fault::UNCLOSED;
use crate::front::Front;

/// A comment that begins with `/*`, up to the next `*/`.
pub(crate) fn block_comment(text: &[u8]) -> (Front, usize)
    requires two { 2 ≤ length text.now }
    requires slash { slice_index text.now 0 ≡ 47 }
    requires star { slice_index text.now 1 ≡ 42 }
    ensures { (dialect : Dialect) → IsFront dialect text.now result.0 result.1 }
{
    let mut starred = false;
    let mut n = 2;
    while n < text.len() {
        let b = text[n];
        n += 1;
        if starred && b == b'/' {
            return (Front::Space, n);
        }
        starred = b == b'*';
    }
    (Front::Fault(UNCLOSED), n)
}

/// A comment that begins with `//`, with its line feed.
pub(crate) fn line_comment(text: &[u8]) -> (Front, usize)
    requires two { 2 ≤ length text.now }
    requires slash { slice_index text.now 0 ≡ 47 }
    requires slashes { slice_index text.now 1 ≡ 47 }
    ensures { (dialect : Dialect) → IsFront dialect text.now result.0 result.1 }
{
    let mut end = 2;
    while end < text.len() {
        let b = text[end];
        end += 1;
        if b == b'\n' {
            return (Front::Space, end);
        }
    }
    (Front::Fault(UNCLOSED), end)
}
