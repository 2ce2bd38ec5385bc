//! Whole numbers in digits alone.
ghost use Rattle.std.specs.Prelude.{◌≡◌, Some, IfSome};
ghost use Rattle.serde_json.specs.Data.{unsigned};
ghost use Rattle.serde_json.specs.Read.{number_of};

use fast_float::Numeral;

/// The whole number below 2^64 that a token of JSON writes in digits alone.
#[tactic(auto, unfolding(serde_json::specs::Read::number_of))]
pub(crate) fn whole_number(text: &str) -> Option<u64>
    ensures { IfSome result (λ n. number_of text.now ≡ Some (unsigned n)) }
{
    let digits = text.as_bytes();
    if digits.is_empty() || digits[0] == b'-' {
        return None;
    }
    Numeral::scan(digits).to_u64()
}

/// The number, below 2^32, that digits spell.
pub(crate) fn small_number(text: &str) -> Option<u32>
    ensures { IfSome result (λ n. number_of text.now ≡ Some (unsigned n)) }
{
    let number = whole_number(text)?;
    u32::try_from(number).ok()
}
