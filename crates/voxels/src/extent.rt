// Part of a block: a box or its interior, after ilattice's `Extent`.
use geometry::vector::UVec3;

// The points from `minimum` up to `bound`, on each axis, the bound not among them.
#[derive(Clone, Copy)]
pub struct Extent {
    pub minimum: UVec3,
    pub bound: UVec3,
}
