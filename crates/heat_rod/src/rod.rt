//! A rod, as it opens.

ghost use Rattle.std.specs.Prelude.{◌≡◌, IfOk};
ghost use Rattle.heat_rod.specs.Rods.{opening_chare, opening_heat, opening_rod};

use crate::heating::{COLD, FLAME};
use crate::plan::RodPlan;
use crate::rod_strip::RodStrip;
use messages::Typed;
use reductions::Reducing;
use std::alloc::{AllocError, Allocator};

/// A strip, as a chare of a run.
pub type RodChare<A> = Typed<Reducing<RodStrip<A>, A>>;

/// A rod. The fire starts in its first strip, whose cells have the temperature of the flame; all others are cold.
#[derive(Clone, Copy, Debug)]
pub struct Rod {
    /// How many strips it has.
    pub strips: u32,
    /// How long they go on.
    pub plan: RodPlan,
}

impl Rod {
    /// Its strips, as they open.
    ///
    /// # Errors
    ///
    /// Memory was refused.
    #[tactic(auto, using(crate::proofs::Steps::rod_more))]
    pub fn chares<A: Allocator + Copy>(&self, alloc: A) -> Result<Vec<RodChare<A>, A>, AllocError>
        ensures opened { IfOk result (λ chares. chares.items ≡ opening_rod self.now.plan self.now.strips) }
    {
        let mut chares = Vec::new(alloc);
        for i in 0..self.strips {
            chares.push(self.chare(alloc, i)?)?;
        }
        Ok(chares)
    }

    // The strip at this place.
    fn chare<A: Allocator + Copy>(&self, alloc: A, i: u32) -> Result<RodChare<A>, AllocError>
        ensures opened { IfOk result (λ chare. chare ≡ opening_chare self.now.plan i) }
    {
        let strip = RodStrip::opening(alloc, self.plan, opening_heat(i))?;
        Ok(Typed::new(Reducing::new(alloc, strip)))
    }
}

// The temperature of the strip at this place.
fn opening_heat(i: u32) -> f64
    ensures value { result ≡ opening_heat i }
{
    if i == 0 {
        return FLAME;
    }
    COLD
}
