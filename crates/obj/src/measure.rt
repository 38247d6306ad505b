// How many bytes the text of a mesh has, and whether it fits an output, before any of it is written.
ghost use Rattle.std.specs.Prelude.{◌≡◌, ◌≤◌, leb, length};
ghost use Rattle.geometry.specs.Point.{at};
ghost use Rattle.obj.specs.Text.{corner_lines, bytes_of, quad_text};
ghost use Rattle.obj.specs.Obj.{obj_text};
ghost use Rattle.obj.specs.Writer.{on, point_places, triangles_long, group_text};

use crate::mesh::{Group, Mesh, Quad};
use greedy::QUAD_NUMBERS;
use writing::handed;

// The bytes of the first line.
const HEAD: usize = 7;

// The most bytes of a quad's lines.
const MOST_QUAD: u64 = 138;

// The digits of a point's coordinates.
#[tactic(auto, using(crate::proofs::Measured::ten_digits))]
fn places(x: u32, y: u32, z: u32) -> usize
    ensures value { result ≡ point_places (at x y z) }
    ensures upper_bound { result ≤ 30 }
{
    digits::places(x) + digits::places(y) + digits::places(z)
}

// The four lines of a quad's corners. On each axis two of them are where the first corner is, and two
// where the last is.
fn corners(quad: Quad) -> usize
    ensures { result ≡ length (bytes_of (corner_lines (on quad.face quad.quad))) }
{
    let corners = quad.face.quad_corners(quad.quad).unwrap();
    let a = corners.minu_minv;
    let d = corners.maxu_maxv;
    let first = places(a.x, a.y, a.z);
    let last = places(d.x, d.y, d.z);
    20 + 2 * (first + last)
}

// The two lines of its triangles.
#[tactic(auto, using(crate::proofs::Measured::ten_digits))]
fn triangles(quad: Quad) -> usize
    ensures { result ≡ triangles_long quad.number }
{
    let start = 4 * quad.number;
    let a = digits::places(start + 1);
    let b = digits::places(start + 2);
    let c = digits::places(start + 3);
    let d = digits::places(start + 4);
    10 + a + 2 * b + 2 * c + d
}

// The six lines of a quad.
fn quad(quad: Quad) -> usize
    ensures { result ≡ length (quad_text quad.number (on quad.face quad.quad)) }
{
    corners(quad) + triangles(quad)
}

// The lines of a group.
fn group(group: &Group) -> usize
    ensures { result ≡ length (group_text group.now.quads.now group.now.face group.now.first group.now.count) }
{
    let mut length = 0;
    for k in group.first..group.first + group.count {
        let from = k * QUAD_NUMBERS;
        length += quad(Quad {
            face: group.face,
            quad: handed::quad_from(&group.quads[from..from + QUAD_NUMBERS]),
            number: k as u32,
        });
    }
    length
}

// The text of a mesh.
fn mesh(mesh: &Mesh) -> usize
    ensures { result ≡ length (obj_text mesh.now.faces mesh.now.counts mesh.now.quads.now) }
{
    let mut length = HEAD;
    let mut first = 0;
    for (face, count) in mesh.faces.iter().zip(&mesh.counts) {
        let count = *count as usize;
        length += group(&Group {
            face: *face,
            quads: mesh.quads,
            first,
            count,
        });
        first += count;
    }
    length
}

// Whether the text of a mesh fits a room. Where there is room for any text of so many quads nothing is
// measured.
pub(crate) fn fits(mesh: &Mesh, room: usize) -> bool
    ensures { result ≡ leb (length (obj_text mesh.now.faces mesh.now.counts mesh.now.quads.now)) room }
{
    let most = HEAD as u64 + MOST_QUAD * mesh.all;
    if most <= room as u64 {
        return true;
    }
    self::mesh(mesh) <= room
}
