//! Laws of spheres.
ghost use Rattle.std.specs.Prelude.{ℕ, ◌≤◌, List};
ghost use Rattle.ecef_boxes.specs.declared.ecef_box.EcefBox.{EcefBox};
ghost use Rattle.bound_spheres.specs.declared.sphere.Sphere.{Sphere};
ghost use Rattle.bound_spheres.specs.declared.scaled.Vector.{Vector};
ghost use Rattle.bound_spheres.specs.Horizon.{Hides, IsHorizon, horizon_of};
ghost use Rattle.bound_spheres.specs.Laws.{OneSphereLaw, SphereLaw};

/// The boxes fix their sphere.
pub fn one_sphere()
    ensures { OneSphereLaw }
{}

/// Boxes, of which there is at least one, have a sphere. Where their numbers are within -2^31 to 2^31, those of its
/// centre are within -2^33 to 2^33, and its radius is at most 2^35.
pub fn sphere()
    ensures { SphereLaw }
{}

/// A multiple that hides a corner is below others that hide it.
pub fn hiding_rises()
    ensures { (c p : Vector) (m k : ℕ) → 1 ≤ m → m ≤ k → Hides m c p → Hides k c p }
{}

/// The horizon as a test and in words.
#[tactic(auto, using(crate::proofs::Rising::horizon_is))]
pub fn horizon_in_words()
    ensures { (sphere : Sphere) (boxes : List EcefBox) → IsHorizon sphere boxes (horizon_of sphere boxes) }
{}
