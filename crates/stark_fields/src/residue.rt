//! Whole numbers modulo a prime, as the elements of a field.
ghost use Rattle.std.specs.Prelude.{◌<◌, ◌≡◌, ⊤};

mod arithmetic;

use crate::modulus::Modulus;
use std::alloc::AllocError;
use std::marker::PhantomData;

/// Its numbers are packed one by one.
#[derive(Clone, Copy, Debug, PartialEq, Eq)]
pub struct Scalar;

/// Its numbers are packed in fours.
#[derive(Clone, Copy, Debug, PartialEq, Eq)]
pub struct Packed;

/// Its numbers are packed in fours, two packs at a time.
#[derive(Clone, Copy, Debug, PartialEq, Eq)]
pub struct Lockstep;

/// An element of the field of the modulus `M`: the whole number below it. `Kind` says how elements
/// are packed: `Scalar` for any modulus, `Packed` and `Lockstep` for 12289 alone.
pub struct Residue<M: Modulus, Kind> {
    value: u32,
    modulus: PhantomData<M>,
    kind: PhantomData<Kind>,
    pub ghost in_range: { value < M.MODULUS },
}

impl<M: Modulus, Kind> Clone for Residue<M, Kind> {
    ghost is_clone = { λ x y. y ≡ x };

    ghost is_infallible = { λ _. ⊤ };

    fn clone(&self) -> Result<Residue<M, Kind>, AllocError> {
        Ok(*self)
    }
}

impl<M: Modulus, Kind> Copy for Residue<M, Kind> {}
