// Making a fence.

ghost use Rattle.std.specs.Prelude.{◌≡◌, ◌↔◌, ◌<◌, length, Err, IfOk};
ghost use Rattle.dgn_fence.specs.declared.fence_fault.FenceFault.{FenceFault};

use crate::fence_fault::FenceFault;
use crate::types::Fence;
use plane_geom::Pt;
use std::alloc::Global;

/// The fence of these points, its corners in order. Few comes exactly where there are fewer than 3, and
/// Many exactly where there are more than 256.
pub fn fence(alloc: Global, points: &[Pt]) -> Result<Fence, FenceFault>
    ensures ok { IfOk result (λ f. f ≡ points.now) }
    ensures too_few { (result ≡ Err FenceFault.Few) ↔ (length points.now < 3) }
    ensures too_many { (result ≡ Err FenceFault.Many) ↔ (256 < length points.now) }
{
    if points.len() < 3 {
        return Err(FenceFault::Few);
    }
    if points.len() > 256 {
        return Err(FenceFault::Many);
    }
    match Vec::from_slice(alloc, points) {
        Ok(corners) => Ok(Fence::of(corners)),
        Err(_) => Err(FenceFault::Memory),
    }
}
