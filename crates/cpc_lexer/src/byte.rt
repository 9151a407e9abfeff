//! The classes of bytes.
ghost use Rattle.std.specs.Prelude.{◌≡◌, ◌<◌, ◌↔◌, IsTrue, is_some, IfSome};
ghost use Rattle.cpc_tree.specs.Pieces.{is_blank, digit_value, is_digit_of};

/// A space, tab, line feed or carriage return.
#[tactic(auto, unfolding(cpc_tree::specs::Pieces::is_blank))]
pub(crate) fn is_blank(b: u8) -> bool
    ensures { result ≡ is_blank b }
{
    b == b' ' || b == b'\t' || b == b'\n' || b == b'\r'
}

/// What a digit of a base up to 16 stands for.
#[tactic(auto, unfolding(cpc_tree::specs::Pieces::digit_value, cpc_tree::specs::Pieces::is_digit_of))]
pub(crate) fn digit_of(base: u8, b: u8) -> Option<u8>
    ensures digit { IsTrue (is_some result) ↔ IsTrue (is_digit_of base b) }
    ensures value { IfSome result (λ d. d ≡ digit_value b) }
    ensures below { IfSome result (λ d. d < base) }
{
    let value = match b {
        b'0'..=b'9' => b - b'0',
        b'A'..=b'F' => b - b'A' + 10,
        b'a'..=b'f' => b - b'a' + 10,
        _ => return None,
    };
    if value < base { Some(value) } else { None }
}
