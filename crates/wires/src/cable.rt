ghost use Rattle.std.specs.Prelude.{◌≡◌, [], ◌∷◌, None};
ghost use Rattle.plant.specs.declared.Kind.TheVariants.{PointToPoint};
ghost use Rattle.wires.specs.Wires.{alone, cable_air};

use crate::wire::Wire;

// A cable is one point-to-point circuit; a frame put at one end waits at the other.
pub type Cable = Wire<2>;

impl Wire<2> {
    // A cable on which nothing waits.
    pub fn new() -> Cable
        ensures { cable_air result ≡ alone PointToPoint (None ∷ None ∷ []) }
    {
        Wire::bare(2)
    }
}
