// Quads without an orientation, after geometry/quad.rs. Combined with an `OrientedBlockFace` they
// have corners.
ghost use Rattle.std.specs.Prelude.{◌≡◌};
ghost use Rattle.geometry.specs.Quad.{quad_of_unit, minimum_within_limits, side_within_limits, within_limits};

use crate::LARGEST_AXIS;
use crate::axis::Axes;
use crate::vector::UVec3;

// A rectangle of voxels in one slice. Any numbers may stand in it: what draws one on a face checks
// document 01's quad limits.
#[derive(Clone, Copy)]
pub struct UnorientedQuad {
    // Its least voxel on every axis.
    pub minimum: UVec3,
    // How many voxels it has along the face's u.
    pub width: u32,
    // And along the face's v.
    pub height: u32,
}

// The quad of one voxel.
#[derive(Clone, Copy)]
pub struct UnorientedUnitQuad {
    // The voxel.
    pub minimum: UVec3,
}

impl UnorientedQuad {
    // Whether the quad is within document 01's limits, along a face's u and v.
    pub(crate) fn within_limits(self, axes: Axes) -> bool
        ensures { result ≡ within_limits axes self }
    {
        minimum_within_limits(self.minimum)
            && side_within_limits(axes.u.coordinate(self.minimum), self.width)
            && side_within_limits(axes.v.coordinate(self.minimum), self.height)
    }
}

// Whether a voxel's coordinates are all below the largest axis.
fn minimum_within_limits(p: UVec3) -> bool
    ensures { result ≡ minimum_within_limits p }
{
    if LARGEST_AXIS <= p.x {
        return false;
    }
    if LARGEST_AXIS <= p.y {
        return false;
    }
    if LARGEST_AXIS <= p.z {
        return false;
    }
    true
}

// Whether a side is at least 1 long and ends within the largest axis.
fn side_within_limits(start: u32, side: u32) -> bool
    ensures { result ≡ side_within_limits start side }
{
    if side == 0 {
        return false;
    }
    if LARGEST_AXIS < start {
        return false;
    }
    if LARGEST_AXIS - start < side {
        return false;
    }
    true
}

// The quad that a unit quad is. Never refuses.
impl From<UnorientedUnitQuad> for UnorientedQuad {
    ghost from_gives = { λ unit quad. quad ≡ quad_of_unit unit };

    fn from(unit: UnorientedUnitQuad) -> UnorientedQuad {
        UnorientedQuad {
            minimum: unit.minimum,
            width: 1,
            height: 1,
        }
    }
}
