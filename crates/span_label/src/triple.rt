ghost use Rattle.std.specs.Prelude.{◌≡◌, ◌≤◌, ◌↔◌, IsTrue};
ghost use Rattle.race_model.specs.Label.{IsTripleBefore};

use std::marker::Model;

/// One level of nesting: the lane plus the span for each region that was joined there, the span, and the team's
/// barriers so far. Contracts see the model's triple.
#[derive(Clone, Copy, PartialEq)]
pub struct Triple {
    pub offset: u64,
    pub span: u16,
    pub barrier: u32,
}

impl Model for Triple {
    ghost use Rattle.race_model.specs.Label.{Triple as ModelTriple};

    ghost Value = { ModelTriple };

    ghost view = { λ t. record { offset = t.offset; span = t.span; barrier = t.barrier } };

    ghost inverse = { λ t. record { offset = t.offset; span = t.span; barrier = t.barrier } };
}

impl Default for Triple {
    ghost is_default = { λ t. t ≡ record { offset = 0; span = 1; barrier = 0 } };

    /// The root's triple before it forks.
    fn default() -> Self {
        Triple {
            offset: 0,
            span: 1,
            barrier: 0,
        }
    }
}

/// Whether a triple orders its label before the other's, where they are the first that differ.
pub fn is_before(x: &Triple, y: &Triple) -> bool
    requires { 1 ≤ x.now.span }
    ensures { IsTrue result ↔ IsTripleBefore x.now y.now }
{
    let span = u64::from(x.span);
    x.span == y.span
        && (x.barrier < y.barrier
            || x.barrier == y.barrier && x.offset < y.offset && x.offset % span == y.offset % span)
}
