//! Numbers in words.

ghost use Rattle.std.specs.Prelude.{◌≡◌, ◌≢◌, ℕ, ◌^◌, ◌<◌, IfSome, IfNone};
ghost use Rattle.std.specs.Fmt.{decimal};

use crate::script::number;

/// The number below 2^64 whose decimal digits these are, with no sign and no leading zero.
pub fn number_in(word: &[u8]) -> Option<u64>
    ensures some { IfSome result (λ n. (n < 2 ^ 64) × (word.now ≡ decimal n)) }
    ensures none { IfNone result ((n : ℕ) → n < 2 ^ 64 → word.now ≢ decimal n) }
{
    number(word)
}
