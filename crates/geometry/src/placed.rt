// A quad on a face, within the limits: its corners and their positions.
ghost use Rattle.std.specs.Prelude.{◌≡◌, ◌+◌, ◌<◌, ◌^◌};
ghost use Rattle.geometry.specs.Point.{along, moved};
ghost use Rattle.geometry.specs.Corners.{base, corner, corners, position, positions};
ghost use Rattle.geometry.specs.Inner.{WithinBounds};

use crate::axis::Axis;
use crate::face::{Corner, OrientedBlockFace, Position, QuadCorners, QuadPositions};
use crate::quad::UnorientedQuad;
use crate::vector::UVec3;

// A quad on a face. Every corner lies within the largest axis.
#[derive(Clone, Copy)]
pub(crate) struct PlacedQuad {
    pub face: OrientedBlockFace,
    pub quad: UnorientedQuad,
    ghost within: { WithinBounds face quad },
}

impl PlacedQuad {
    // The four corners.
    pub(crate) fn corners(self) -> QuadCorners
        ensures { result ≡ corners self.face self.quad }
    {
        let axes = self.face.permutation.axes();
        let u = axes.u;
        let v = axes.v;
        let minu_minv = self.base();
        let maxu_minv = step(minu_minv, u, self.quad.width);
        let minu_maxv = step(minu_minv, v, self.quad.height);
        let maxu_maxv = step(maxu_minv, v, self.quad.height);
        QuadCorners {
            minu_minv,
            maxu_minv,
            minu_maxv,
            maxu_maxv,
        }
    }

    // The corner that every other is counted from.
    fn base(self) -> UVec3
        ensures { result ≡ base self.face self.quad }
    {
        let axes = self.face.permutation.axes();
        let n = axes.n;
        let minimum = self.quad.minimum;
        if self.face.is_positive() {
            step(minimum, n, 1)
        } else {
            minimum
        }
    }

    // One corner.
    fn corner(self, which: Corner) -> UVec3
        ensures { result ≡ corner self.face self.quad which }
    {
        let axes = self.face.permutation.axes();
        let u = axes.u;
        let v = axes.v;
        let minu_minv = self.base();
        match which {
            Corner::MinuMinv => minu_minv,
            Corner::MaxuMinv => step(minu_minv, u, self.quad.width),
            Corner::MinuMaxv => step(minu_minv, v, self.quad.height),
            Corner::MaxuMaxv => step(step(minu_minv, u, self.quad.width), v, self.quad.height),
        }
    }

    // The four positions.
    pub(crate) fn positions(self, voxel_size: f32) -> QuadPositions
        ensures { result ≡ positions self.face self.quad voxel_size }
    {
        let minu_minv = self.position(Corner::MinuMinv, voxel_size);
        let maxu_minv = self.position(Corner::MaxuMinv, voxel_size);
        let minu_maxv = self.position(Corner::MinuMaxv, voxel_size);
        let maxu_maxv = self.position(Corner::MaxuMaxv, voxel_size);
        QuadPositions {
            minu_minv,
            maxu_minv,
            minu_maxv,
            maxu_maxv,
        }
    }

    // The position of one corner: each coordinate is cast exactly, and
    // the product is the one rounding.
    pub(crate) fn position(self, which: Corner, voxel_size: f32) -> Position
        ensures { result ≡ position voxel_size (corner self.face self.quad which) }
    {
        let c = self.corner(which);
        let x = c.x as f32;
        let y = c.y as f32;
        let z = c.z as f32;
        Position {
            x: voxel_size * x,
            y: voxel_size * y,
            z: voxel_size * z,
        }
    }
}

// A point, `by` steps up along an axis.
fn step(p: UVec3, axis: Axis, by: u32) -> UVec3
    requires { along axis p + by < 2 ^ 32 }
    ensures { result ≡ moved axis by p }
{
    match axis {
        Axis::X => UVec3 {
            x: p.x + by,
            y: p.y,
            z: p.z,
        },
        Axis::Y => UVec3 {
            x: p.x,
            y: p.y + by,
            z: p.z,
        },
        Axis::Z => UVec3 {
            x: p.x,
            y: p.y,
            z: p.z + by,
        },
    }
}
