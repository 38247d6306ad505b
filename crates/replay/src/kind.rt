// The kinds of calls that a list has.
use crate::fault::Fault;
use std::fmt;

// Their order is that of their numbers, which begin at 1.
#[derive(Clone, Copy)]
pub enum Kind {
    GreedyQuads,
    VisibleBlockFaces,
    QuadMeshPosition,
    QuadCorners,
    QuadMeshNormals,
    QuadMeshIndices,
    TexCoords,
    SignedAxisNew,
    SignedAxisFromVector,
    Canonical,
}

impl Kind {
    pub const COUNT: usize = 10;

    pub const ALL: [Kind; Kind::COUNT] = [
        Kind::GreedyQuads,
        Kind::VisibleBlockFaces,
        Kind::QuadMeshPosition,
        Kind::QuadCorners,
        Kind::QuadMeshNormals,
        Kind::QuadMeshIndices,
        Kind::TexCoords,
        Kind::SignedAxisNew,
        Kind::SignedAxisFromVector,
        Kind::Canonical,
    ];
}

impl TryFrom<u32> for Kind {
    type Error = Fault;

    fn try_from(number: u32) -> Result<Kind, Fault> {
        number
            .checked_sub(1)
            .and_then(|k| Kind::ALL.get(k as usize))
            .copied()
            .ok_or(Fault::NoKind)
    }
}

impl fmt::Display for Kind {
    fn fmt<W: fmt::Write>(&self, f: &mut fmt::Formatter<W>) -> fmt::Result {
        f.write_str(match self {
            Kind::GreedyQuads => "greedy_quads",
            Kind::VisibleBlockFaces => "visible_block_faces",
            Kind::QuadMeshPosition => "quad_mesh_position",
            Kind::QuadCorners => "quad_corners",
            Kind::QuadMeshNormals => "quad_mesh_normals",
            Kind::QuadMeshIndices => "quad_mesh_indices",
            Kind::TexCoords => "tex_coords",
            Kind::SignedAxisNew => "SignedAxis::new",
            Kind::SignedAxisFromVector => "SignedAxis::from_vector",
            Kind::Canonical => "canonical",
        })
    }
}
