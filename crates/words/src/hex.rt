// Hex digits.
ghost use Rattle.std.specs.Prelude.{◌≡◌, ◌<◌, IfSome};
ghost use Rattle.words.specs.Hex.{value_of};

// The value of a hex digit; none where the byte is not one.
#[tactic(auto, unfolding(crate::specs::Hex::value_of, crate::specs::Hex::is_hex, crate::specs::Hex::hex_digit))]
pub fn hex_digit(b: u8) -> Option<u8>
    ensures value { result ≡ value_of b }
    ensures small { IfSome result (λ v. v < 16) }
{
    match b {
        b'0'..=b'9' => Some(b - 48),
        b'A'..=b'F' => Some(b - 55),
        b'a'..=b'f' => Some(b - 87),
        _ => None,
    }
}
