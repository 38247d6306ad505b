// What is drawn of a face and of its quads: what comes out is the answer's numbers, or a refusal.
use crate::given::{self, Given};
use crate::show;
use geometry::face::{
    Corner, Normal, OrientedBlockFace, Position, QuadCorners, QuadIndices, QuadNormals,
    QuadPositions, QuadTexCoords, VertexIndex,
};
use geometry::quad::{UnorientedQuad, UnorientedUnitQuad};
use std::io::{self, Write};

// The normals at a quad's four corners.
fn normals<W: Write>(out: &mut W, q: QuadNormals) -> io::Result<()> {
    for Normal { x, y, z } in [q.minu_minv, q.maxu_minv, q.minu_maxv, q.maxu_maxv] {
        show::floats(out, &[x, y, z])?;
    }
    Ok(())
}

// A sign and a permutation's number: the face that is made of them. Then, of the face as it is given,
// check 6, the signed normal and the normals.
pub fn face<W: Write>(out: &mut W, given: &mut Given<'_>) -> io::Result<()> {
    let f = given.face(out)?;
    let made = OrientedBlockFace::new(f.n_sign, f.permutation);
    show::came(out, made, show::face)?;
    show::check(out, f.check_sign())?;
    show::came(out, f.signed_normal(), show::direction)?;
    show::came(out, f.quad_mesh_normals(), normals)
}

// The point of a unit quad: the quad that it is.
pub fn unit_quad(out: &mut impl Write, given: &mut Given<'_>) -> io::Result<()> {
    let minimum = given.point();
    let q = UnorientedQuad::from(UnorientedUnitQuad { minimum });
    let p = q.minimum;
    show::numbers(out, &[p.x, p.y, p.z, q.width, q.height])
}

// A quad's four corners.
fn four_corners<W: Write>(out: &mut W, q: QuadCorners) -> io::Result<()> {
    for corner in [q.minu_minv, q.maxu_minv, q.minu_maxv, q.maxu_maxv] {
        show::point(out, corner)?;
    }
    Ok(())
}

// A face and a quad: check 12 by itself. Then the four corners.
pub fn corners<W: Write>(out: &mut W, given: &mut Given<'_>) -> io::Result<()> {
    let face = given.face(out)?;
    let quad = given::quad(given);
    show::check(out, face.check_quad(quad))?;
    show::came(out, face.quad_corners(quad), four_corners)
}

// The position of a corner.
fn one<W: Write>(out: &mut W, p: Position) -> io::Result<()> {
    show::floats(out, &[p.x, p.y, p.z])
}

// The positions of a quad's four corners.
fn four<W: Write>(out: &mut W, q: QuadPositions) -> io::Result<()> {
    for p in [q.minu_minv, q.maxu_minv, q.minu_maxv, q.maxu_maxv] {
        one(out, p)?;
    }
    Ok(())
}

// A corner by its number.
fn corner(number: u32) -> Corner {
    match number {
        0 => Corner::MinuMinv,
        1 => Corner::MaxuMinv,
        2 => Corner::MinuMaxv,
        _ => Corner::MaxuMaxv,
    }
}

// A face, a quad, a size and a corner: the corner's position. Then those of all four.
pub fn position<W: Write>(out: &mut W, given: &mut Given<'_>) -> io::Result<()> {
    let face = given.face(out)?;
    let quad = given::quad(given);
    let size = given::float(given);
    let corner = corner(given.number());
    show::came(out, face.quad_mesh_position(quad, corner, size), one)?;
    show::came(out, face.quad_mesh_positions(quad, size), four)
}

// The six vertices of two triangles.
fn vertices<W: Write>(out: &mut W, i: QuadIndices) -> io::Result<()> {
    for vertex in [i.0, i.1, i.2, i.3, i.4, i.5] {
        show::number(out, vertex.0)?;
    }
    Ok(())
}

// A face and its first vertex: the six vertices of its triangles.
pub fn indices<W: Write>(out: &mut W, given: &mut Given<'_>) -> io::Result<()> {
    let face = given.face(out)?;
    let start = VertexIndex(given.number());
    show::came(out, face.quad_mesh_indices(start), vertices)
}

// Four texture pairs.
fn pairs<W: Write>(out: &mut W, q: QuadTexCoords) -> io::Result<()> {
    for pair in [q.minu_minv, q.maxu_minv, q.minu_maxv, q.maxu_maxv] {
        show::floats(out, &[pair.u, pair.v])?;
    }
    Ok(())
}

// A face, a quad, the axis whose faces have u flipped, and whether v is flipped: four texture pairs.
pub fn textures<W: Write>(out: &mut W, given: &mut Given<'_>) -> io::Result<()> {
    let face = given.face(out)?;
    let quad = given::quad(given);
    let axis = given.axis();
    let flip = given.number() != 0;
    show::came(out, face.tex_coords(axis, flip, quad), pairs)
}
