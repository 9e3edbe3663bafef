//! Laws of the definitions, each the contract of a function with an empty body.

ghost use Rattle.std.specs.Prelude.{◌≡◌, ◌≤◌, ℕ, List, length};
ghost use Rattle.lb_certificates.specs.Naming.{bytes_moved};
ghost use Rattle.any_order.specs.AnyOrder.{AreBounds, AreFewestOfAll, IsPlan, IsRise, IsRiseAtCorners};

/// No plan within the limit moves fewer bytes than the bounds say, wherever the elements are.
pub fn none_below_bounds()
    ensures none_below_bounds { (loads : List ℕ) (sizes : List (ℕ × ℕ)) (blocks limit : ℕ) (any free : ℕ → ℕ → ℕ) (bytes : ℕ) (cuts names : List ℕ)
        → length loads ≡ length sizes → AreBounds loads sizes blocks limit any free bytes → IsPlan loads blocks limit cuts names
        → bytes ≤ bytes_moved sizes cuts names }
{}

/// A plan whose bytes are a bound moves the fewest of all.
pub fn fewest_where_bounded()
    ensures fewest_where_bounded { (loads : List ℕ) (sizes : List (ℕ × ℕ)) (blocks limit : ℕ) (any free : ℕ → ℕ → ℕ) (cuts names : List ℕ)
        → length loads ≡ length sizes → IsPlan loads blocks limit cuts names → AreBounds loads sizes blocks limit any free (bytes_moved sizes cuts names)
        → AreFewestOfAll loads sizes blocks limit cuts names }
{}

/// Bounds that rise by no more than blocks bring, where these have to be looked at, do so everywhere.
pub fn corners_are_enough()
    ensures corners_are_enough { (loads : List ℕ) (sizes : List (ℕ × ℕ)) (limit : ℕ) (any free next_any next_free : ℕ → ℕ)
        → IsRiseAtCorners loads sizes limit any free next_any next_free → IsRise loads sizes limit any free next_any next_free }
{}
