//! The value of the polynomial through values on a group, by folding: a polynomial's values at a
//! point and at the opposite one give those of its even and its odd part at the point's square,
//! and so a polynomial of half as many coefficients, on a group of half as many points. It is the
//! fold of Ben-Sasson, Bentov, Horesh and Riabzev, "Fast Reed-Solomon interactive oracle proofs of
//! proximity" (ICALP 2018), where each challenge is the point itself, squared again and again.
ghost use Rattle.std.specs.Prelude.{◌≡◌, ◌*◌, ◌<◌, ◌/◌, IfOk, length, map};
ghost use Rattle.std.specs.Int.{IsPowerOfTwo};
ghost use Rattle.stark_support.specs.Folding.{KeepsValues};
ghost use Rattle.stark_support.specs.Points.{interpolation_at_powers};
ghost use Rattle.stark_support.specs.Polynomial.{value_over};
ghost use Rattle.stark_support.specs.TwoAdic.{HasOrder};

use crate::field::{ExtensionField, Field};
use crate::powers::power_of;
use crate::util::log2_strict_usize;
use std::alloc::{AllocError, Global};

/// Each value in the extension.
fn embedded<F: Field, EF: ExtensionField<F>>(
    alloc: Global,
    values: &[F],
) -> Result<Vec<EF>, AllocError>
    ensures { IfOk result (λ above. above.items ≡ map EF.embed values.now) }
{
    let mut above = Vec::new(alloc);
    for value in values {
        above.push(EF::from_base(*value))?;
    }
    Ok(above)
}

/// Half as many values, on the group of the squares: whatever polynomial takes the values at the
/// powers of `generator`, its even part plus `point` times its odd part takes these, and has at the
/// square of `point` the polynomial's value at `point`.
fn folded_values<F: Field, EF: ExtensionField<F>>(
    alloc: Global,
    generator: F,
    point: EF,
    values: &[EF],
) -> Result<Vec<EF>, AllocError>
    requires order { HasOrder F.ring generator (length values.now) }
    requires some { 0 < length values.now }
    requires even { 2 * (length values.now / 2) ≡ length values.now }
    ensures number { IfOk result (λ folded. length folded.items ≡ length values.now / 2) }
    ensures through { IfOk result (λ folded.
        KeepsValues EF.ring (EF.embed generator) values.now point
        (EF.embed (F.ring.mul generator generator)) folded.items) }
{
    let count = values.len() / 2;
    let half: EF = EF::from_base((F::ONE + F::ONE).inverse());
    let step: EF = EF::from_base(power_of(generator, (values.len() - 1) as u64));
    let mut ratio = point;
    let mut folded = Vec::new(alloc);
    for index in 0..count {
        let at = values[index];
        let opposite = values[index + count];
        folded.push(half * (at + opposite + ratio * (at - opposite)))?;
        ratio = ratio * step;
    }
    Ok(folded)
}

/// The value at `point` of the polynomial of degree below the number of the values, a power of two,
/// that takes them at the powers of `generator`. It takes a time that grows with that number. No
/// inverse is taken at the point, so that the points of the group need no case of their own.
pub(crate) fn value_through<F: Field, EF: ExtensionField<F>>(
    alloc: Global,
    generator: F,
    values: &[F],
    point: EF,
) -> Result<EF, AllocError>
    requires order { HasOrder F.ring generator (length values.now) }
    requires power { IsPowerOfTwo (length values.now) }
    ensures { IfOk result (λ value. value
        ≡ value_over EF.ring EF.embed (interpolation_at_powers F.ring F.inverse_of generator
        values.now) point) }
{
    let mut left = embedded(alloc, values)?;
    let mut root = generator;
    let mut at = point;
    for _fold in 0..log2_strict_usize(values.len()) {
        left = folded_values(alloc, root, at, &left)?;
        root = root * root;
        at = at * at;
    }
    Ok(left[0])
}
