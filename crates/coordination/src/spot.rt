// Vertices of a box by their numbers, and steps between them.
ghost use Rattle.std.specs.Prelude.{◌≡◌, ◌^◌};
ghost use Rattle.coordination.specs.Marks.{IsLandingWithin, spot_along};

/// A vertex of the net in a box: the vertex of the primitive graph that it lies over, and its
/// number in the box.
#[derive(Clone, Copy, PartialEq, Eq)]
pub struct Spot {
    pub over: u32,
    pub at: u32,
}

/// A step from vertices over one vertex of the primitive graph to those over another: by how much
/// the number grows.
#[derive(Clone, Copy, PartialEq, Eq)]
pub struct Step {
    pub to: u32,
    pub by: i64,
}

impl Spot {
    /// Where a step leads.
    pub fn along(self, step: Step) -> Spot
        requires { IsLandingWithin (2 ^ 32) self step }
        ensures { result ≡ spot_along self step }
    {
        Spot {
            over: step.to,
            at: (i64::from(self.at) + step.by) as u32,
        }
    }
}
