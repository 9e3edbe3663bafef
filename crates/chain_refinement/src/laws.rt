//! Laws of the definitions, each the contract of a function with an empty body.

ghost use Rattle.std.specs.Prelude.{◌≡◌, ◌<◌, ℕ, ◌+◌, List, length, slice_index, sum_by};
ghost use Rattle.lb_certificates.specs.Chain.{IsDivision};
ghost use Rattle.lb_certificates.specs.Naming.{bytes_moved, total};
ghost use Rattle.chain_refinement.specs.Orders.{IsPresentOrder};
ghost use Rattle.chain_refinement.specs.Refinement.{AreFewest, AreNearest, AreProved, cuts_cost, held};

/// The bytes that move are what the cuts between blocks cost, except for what no cut changes.
pub fn moved_by_cuts()
    ensures moved_by_cuts { (sizes : List (ℕ × ℕ)) (names cuts : List ℕ) → 0 < length names → IsDivision 0 (length sizes) (length names) cuts
        → bytes_moved sizes cuts names + total (length names) (λ b. held sizes (slice_index names b)) ≡ sum_by (λ size. size.0) sizes + cuts_cost sizes names cuts }
{}

/// Cuts that heights prove move the fewest bytes.
pub fn fewest_where_proved()
    ensures fewest_where_proved { (loads : List ℕ) (sizes : List (ℕ × ℕ)) (names : List ℕ) (limit : ℕ) (cuts : List ℕ) (heights : List (List (ℕ × ℕ)))
        → length loads ≡ length sizes → AreProved loads sizes names limit cuts heights → AreFewest loads sizes names limit cuts }
{}

/// There is one list of cuts nearest to the present ones.
pub fn one_is_nearest()
    ensures one_is_nearest { (loads : List ℕ) (sizes : List (ℕ × ℕ)) (names present : List ℕ) (limit : ℕ) (cuts others : List ℕ)
        → AreNearest loads sizes names present limit cuts → AreNearest loads sizes names present limit others → cuts ≡ others }
{}

/// There is one present order of the PEs, with one list of cuts.
pub fn one_order()
    ensures one_order { (sizes : List (ℕ × ℕ)) (pes : ℕ) (names present others cuts : List ℕ)
        → IsPresentOrder sizes pes names present → IsPresentOrder sizes pes others cuts
        → (names ≡ others) × (present ≡ cuts) }
{}
