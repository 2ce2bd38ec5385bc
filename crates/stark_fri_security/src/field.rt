//! The bits of a field.
ghost use Rattle.std.specs.Prelude.{◌≤◌};
ghost use Rattle.stark_fri_security.specs.FieldBits.{AreFieldBits};

/// The bits of a field of `order^degree` elements, as `num_modulus_bits` of `StarkSecurityParams`
/// takes them: the logarithm of that number, rounded down, and at most 127.
pub fn field_bits(order: u64, degree: usize) -> usize
    requires { 1 ≤ order }
    ensures { AreFieldBits order degree result }
{
    let mut elements = 1u128;
    for _factor in 0..degree {
        elements = elements.saturating_mul(u128::from(order));
    }
    elements.ilog2() as usize
}
