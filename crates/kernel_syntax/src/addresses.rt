//! The layout of a kernel's arrays.
ghost use Rattle.std.specs.Prelude.{◌≡◌};
ghost use Rattle.kernel_syntax.specs.Layout.{laid, IsWithinLimits};

use crate::syntax::Kernel;

/// Sets the base and the first element of each array. Nothing else changes.
pub fn layout(kernel: &mut Kernel)
    requires { IsWithinLimits kernel.old.arrays }
    ensures { kernel.new ≡ record kernel.old { arrays = laid kernel.old.arrays } }
{
    kernel.arrays.lay_out();
}
