//! What prices prove, as the clause of a function that does nothing.

ghost use Rattle.std.specs.Prelude.{◌≤◌, ℕ, List, ℤ};
ghost use Rattle.lb_certificates.specs.Naming.{naming_cost};
ghost use Rattle.speed_certificates.specs.declared.time.EndTime.{EndTime};
ghost use Rattle.speed_certificates.specs.Speeds.{Pes, count};
ghost use Rattle.speed_namings.specs.Timely.{IsTimelyNaming, ProvesTimely};

/// No naming with which all PEs end by a time costs less than what prices over the allowed pairs add up to. The clause is the law;
/// the function does nothing.
pub fn timely_prices_law()
    ensures below { (loads : List ℕ) (pes : Pes) (t : EndTime) (cost : ℕ → ℕ → ℕ) (moved : ℕ) (u v : List ℤ) (others : List ℕ)
        → ProvesTimely loads pes t cost moved u v → IsTimelyNaming loads pes t others → moved ≤ naming_cost (count pes) cost others }
{}
