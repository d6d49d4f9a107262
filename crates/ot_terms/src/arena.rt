//! Values in an arena.
ghost use Rattle.std.specs.Prelude.{◌≡◌, IfOk};

use ask_core::NoMemory;
use bumpalo::Bump;

/// The value, in the arena.
#[inline(always)]
pub fn placed<'a, T: Drop>(bump: &'a Bump, value: T) -> Result<&'a T, NoMemory>
    ensures { IfOk result (λ r. r.now ≡ value) }
{
    Ok(bump.try_alloc(value)?)
}
