// A mesh that has passed its checks, its groups, and their quads.
ghost use Rattle.std.specs.Prelude.{◌≡◌, ◌<◌};
ghost use Rattle.geometry.specs.Refusal.{accepted, checked};
ghost use Rattle.writing.specs.Handed.{most_quads, total, listed_checks};
ghost use Rattle.obj.specs.Writer.{Drawable, GroupReady, ready_props};

use geometry::face::OrientedBlockFace;
use geometry::quad::UnorientedQuad;

// Six faces, how many quads lie on each, the quads, and how many there are.
#[derive(Clone, Copy)]
pub(crate) struct Mesh<'a> {
    pub(crate) faces: [OrientedBlockFace; 6],
    pub(crate) counts: [u64; 6],
    pub(crate) quads: &'a [u32],
    pub(crate) all: u64,
    ghost passed: { checked (listed_checks faces counts quads.now) ≡ accepted tt },
    ghost summed: { all ≡ total counts },
}

// So many quads on a face, after so many of the groups before.
#[derive(Clone, Copy)]
pub(crate) struct Group<'a> {
    pub(crate) face: OrientedBlockFace,
    pub(crate) quads: &'a [u32],
    pub(crate) first: usize,
    pub(crate) count: usize,
    ghost ready: { GroupReady quads.now face first count } by { Prim.hlevel ready_props },
}

// A quad on its face, and its number among all quads.
#[derive(Clone, Copy)]
pub(crate) struct Quad {
    pub(crate) face: OrientedBlockFace,
    pub(crate) quad: UnorientedQuad,
    pub(crate) number: u32,
    ghost drawable: { Drawable face quad },
    ghost few: { number < most_quads },
}
