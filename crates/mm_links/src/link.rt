//! What a link leads to: a place or none, in four bytes.
ghost use Rattle.std.specs.Prelude.{◌≡◌, ◌<◌, None, Some};
ghost use Rattle.mm_links.specs.Link.{none_number};

use std::marker::Model;

/// A place, or none, in four bytes. `u32::MAX` stands for none.
#[derive(Clone, Copy, Debug)]
pub struct Link {
    number: u32,
}

impl Model for Link {
    ghost use Rattle.std.specs.Prelude.{ℕ, Option};
    ghost use Rattle.std.proofs.Common.{ap, refl, sym, inl, inr};
    ghost use Rattle.std.proofs.lemmas.Bool.{cases_eq, eq-eqb, ne_eqb};
    ghost use Rattle.mm_links.specs.Link.{none_number, meant, number_of};

    ghost Value = { Option ℕ };

    ghost view = { λ l. meant l.number };

    ghost inverse = { λ place. record { number = number_of place } };

    ghost inverse_ok = { λ l _. elim (cases_eq l.number none_number) [
      | inl same ↦ Prim.rw (eq-eqb l.number none_number same) (ap (λ n. record { number = n }) (sym same))
      | inr other ↦ Prim.rw (ne_eqb l.number none_number other) refl
    ] };
}

impl Link {
    /// No place.
    pub const NONE: Link = Link { number: u32::MAX };

    /// This place, which is below `u32::MAX`, in constant time.
    #[inline]
    pub fn to(place: u32) -> Link
        requires { place < none_number }
        ensures { result ≡ Some place }
    {
        Link { number: place }
    }

    /// Returns the place, in constant time.
    #[inline]
    pub fn get(self) -> Option<u32>
        ensures { result ≡ self }
    {
        if self.number == u32::MAX {
            return None;
        }
        Some(self.number)
    }
}
