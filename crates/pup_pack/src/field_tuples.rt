//! The fields of a struct of three to six fields, packed one after another.

use crate::error::PupError;
use crate::fields::{Fields, join};
use crate::measure::both_len;
use std::alloc::Allocator;

impl<A: Allocator, X: Fields<A>, Y: Fields<A>, Z: Fields<A>> Fields<A> for (X, Y, Z) {
    ghost use Rattle.std.specs.Prelude.{◌++◌};

    ghost fits = { λ s. X.fits s.0 × (Y.fits s.1 × Z.fits s.2) };

    ghost counted = { λ s. X.counted s.0 × (Y.counted s.1 × Z.counted s.2) };

    ghost pack = { λ s. X.pack s.0 ++ (Y.pack s.1 ++ Z.pack s.2) };

    fn fields_len(&self) -> u32 {
        both_len(
            self.0.fields_len(),
            both_len(self.1.fields_len(), self.2.fields_len()),
        )
    }

    fn pack_fields(&self, out: &mut Vec<u8, A>) -> Result<(), PupError> {
        let from_second = join(&self.1, &self.2);
        join(&self.0, &from_second).pack_fields(out)
    }
}

impl<A: Allocator, W: Fields<A>, X: Fields<A>, Y: Fields<A>, Z: Fields<A>> Fields<A>
    for (W, X, Y, Z) {
    ghost use Rattle.std.specs.Prelude.{◌++◌};

    ghost fits = { λ s. W.fits s.0 × (X.fits s.1 × (Y.fits s.2 × Z.fits s.3)) };

    ghost counted = { λ s. W.counted s.0 × (X.counted s.1 × (Y.counted s.2 × Z.counted s.3)) };

    ghost pack = { λ s. W.pack s.0 ++ (X.pack s.1 ++ (Y.pack s.2 ++ Z.pack s.3)) };

    fn fields_len(&self) -> u32 {
        both_len(
            self.0.fields_len(),
            both_len(
                self.1.fields_len(),
                both_len(self.2.fields_len(), self.3.fields_len()),
            ),
        )
    }

    fn pack_fields(&self, out: &mut Vec<u8, A>) -> Result<(), PupError> {
        let from_third = join(&self.2, &self.3);
        let from_second = join(&self.1, &from_third);
        join(&self.0, &from_second).pack_fields(out)
    }
}

impl<A: Allocator, V: Fields<A>, W: Fields<A>, X: Fields<A>, Y: Fields<A>, Z: Fields<A>> Fields<A>
    for (V, W, X, Y, Z) {
    ghost use Rattle.std.specs.Prelude.{◌++◌};

    ghost fits = { λ s. V.fits s.0 × (W.fits s.1 × (X.fits s.2 × (Y.fits s.3 × Z.fits s.4))) };

    ghost counted = { λ s. V.counted s.0 × (W.counted s.1 × (X.counted s.2 × (Y.counted s.3 × Z.counted s.4))) };

    ghost pack = { λ s. V.pack s.0 ++ (W.pack s.1 ++ (X.pack s.2 ++ (Y.pack s.3 ++ Z.pack s.4))) };

    fn fields_len(&self) -> u32 {
        both_len(
            self.0.fields_len(),
            both_len(
                self.1.fields_len(),
                both_len(
                    self.2.fields_len(),
                    both_len(self.3.fields_len(), self.4.fields_len()),
                ),
            ),
        )
    }

    fn pack_fields(&self, out: &mut Vec<u8, A>) -> Result<(), PupError> {
        let from_fourth = join(&self.3, &self.4);
        let from_third = join(&self.2, &from_fourth);
        let from_second = join(&self.1, &from_third);
        join(&self.0, &from_second).pack_fields(out)
    }
}

impl<
    A: Allocator,
    U: Fields<A>,
    V: Fields<A>,
    W: Fields<A>,
    X: Fields<A>,
    Y: Fields<A>,
    Z: Fields<A>,
> Fields<A> for (U, V, W, X, Y, Z) {
    ghost use Rattle.std.specs.Prelude.{◌++◌};

    ghost fits = { λ s. U.fits s.0 × (V.fits s.1 × (W.fits s.2 × (X.fits s.3 × (Y.fits s.4 × Z.fits s.5)))) };

    ghost counted = { λ s. U.counted s.0 × (V.counted s.1 × (W.counted s.2 × (X.counted s.3 × (Y.counted s.4 × Z.counted s.5)))) };

    ghost pack = { λ s. U.pack s.0 ++ (V.pack s.1 ++ (W.pack s.2 ++ (X.pack s.3 ++ (Y.pack s.4 ++ Z.pack s.5)))) };

    fn fields_len(&self) -> u32 {
        both_len(
            self.0.fields_len(),
            both_len(
                self.1.fields_len(),
                both_len(
                    self.2.fields_len(),
                    both_len(
                        self.3.fields_len(),
                        both_len(self.4.fields_len(), self.5.fields_len()),
                    ),
                ),
            ),
        )
    }

    fn pack_fields(&self, out: &mut Vec<u8, A>) -> Result<(), PupError> {
        let from_fifth = join(&self.4, &self.5);
        let from_fourth = join(&self.3, &from_fifth);
        let from_third = join(&self.2, &from_fourth);
        let from_second = join(&self.1, &from_third);
        join(&self.0, &from_second).pack_fields(out)
    }
}
