//! The length of a name, or none, in two bytes.
ghost use Rattle.std.specs.Prelude.{◌≡◌, ◌≤◌, None, Some};

use std::marker::Model;

/// The length of a name, or none, in two bytes. 0 stands for none, since a name has a byte at least.
#[derive(Clone, Copy, Debug)]
pub(crate) struct Length {
    bytes: u16,
}

impl Model for Length {
    ghost use Rattle.std.specs.Prelude.{ℕ, Option};
    ghost use Rattle.std.proofs.Common.{ap, refl, sym, inl, inr};
    ghost use Rattle.std.proofs.lemmas.Bool.{cases_eq, eq-eqb, ne_eqb};
    ghost use Rattle.mm_names.specs.private.Length.{meant, number_of};

    ghost Value = { Option ℕ };

    ghost view = { λ l. meant l.bytes };

    ghost inverse = { λ length. record { bytes = number_of length } };

    ghost inverse_ok = { λ l _. elim (cases_eq l.bytes 0) [
      | inl same ↦ Prim.rw (eq-eqb l.bytes 0 same) (ap (λ n. record { bytes = n }) (sym same))
      | inr other ↦ Prim.rw (ne_eqb l.bytes 0 other) refl
    ] };
}

impl Length {
    /// No name.
    pub(crate) const NONE: Length = Length { bytes: 0 };

    /// This length, in constant time.
    #[inline]
    pub(crate) fn of(bytes: u16) -> Length
        requires { 1 ≤ bytes }
        ensures { result ≡ Some bytes }
    {
        Length { bytes }
    }

    /// Returns the length, in constant time.
    #[inline]
    pub(crate) fn get(self) -> Option<u16>
        ensures { result ≡ self }
    {
        if self.bytes == 0 {
            return None;
        }
        Some(self.bytes)
    }
}
