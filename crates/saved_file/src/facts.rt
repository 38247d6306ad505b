// What is told of quads: how many there are, their area, and the bounds of their corners.
use geometry::face::OrientedBlockFace;
use geometry::quad::UnorientedQuad;
use geometry::vector::UVec3;
use std::fmt;

// The lowest and the highest coordinates of some points.
#[derive(Clone, Copy)]
pub struct Bounds {
    low: UVec3,
    high: UVec3,
}

impl Bounds {
    fn of(point: UVec3) -> Bounds {
        Bounds {
            low: point,
            high: point,
        }
    }

    // Of the points of both.
    fn join(self, other: Bounds) -> Bounds {
        Bounds {
            low: UVec3 {
                x: self.low.x.min(other.low.x),
                y: self.low.y.min(other.low.y),
                z: self.low.z.min(other.low.z),
            },
            high: UVec3 {
                x: self.high.x.max(other.high.x),
                y: self.high.y.max(other.high.y),
                z: self.high.z.max(other.high.z),
            },
        }
    }
}

#[derive(Clone, Copy, Default)]
pub struct Facts {
    quads: u64,
    area: u64,
    // Of the corners, where there are any.
    bounds: Option<Bounds>,
}

impl Facts {
    // Of one quad on a face.
    pub fn of(face: OrientedBlockFace, quad: UnorientedQuad) -> Facts {
        match face.quad_corners(quad) {
            Ok(corners) => Facts {
                quads: 1,
                area: u64::from(quad.width) * u64::from(quad.height),
                bounds: [
                    corners.minu_minv,
                    corners.maxu_minv,
                    corners.minu_maxv,
                    corners.maxu_maxv,
                ]
                .into_iter()
                .map(Bounds::of)
                .reduce(Bounds::join),
            },
            Err(_) => Facts::default(),
        }
    }

    // Of the quads of both.
    pub fn join(self, other: Facts) -> Facts {
        let bounds = match (self.bounds, other.bounds) {
            (Some(bounds), Some(others)) => Some(bounds.join(others)),
            (bounds, None) => bounds,
            (None, others) => others,
        };
        Facts {
            quads: self.quads.wrapping_add(other.quads),
            area: self.area.wrapping_add(other.area),
            bounds,
        }
    }
}

impl fmt::Display for Facts {
    fn fmt<W: fmt::Write>(&self, f: &mut fmt::Formatter<W>) -> fmt::Result {
        write!(f, "quads {} area {}", self.quads, self.area)?;
        if let Some(Bounds { low, high }) = self.bounds {
            write!(f, " corners {} {} {}", low.x, low.y, low.z)?;
            write!(f, " to {} {} {}", high.x, high.y, high.z)?;
        }
        Ok(())
    }
}
