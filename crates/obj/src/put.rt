// Writes the text of a mesh, byte after byte, where there is room for it.
ghost use Rattle.std.specs.Prelude.{◌∷◌, [], ◌≡◌, ◌+◌, ◌<◌, ◌≤◌, length};
ghost use Rattle.listing.specs.Listing.{overwritten};
ghost use Rattle.obj.specs.Text as spec;
ghost use Rattle.obj.specs.Text.{corner_line, triangle_line, corner_lines, triangle_lines, bytes_of, quad_text};
ghost use Rattle.obj.specs.Obj.{obj_text};
ghost use Rattle.obj.specs.Writer.{Wrote, Room, ended, line_of, on, group_text};

use crate::mesh::{Group, Mesh, Quad};
use geometry::face::VertexIndex;
use geometry::vector::UVec3;
use greedy::QUAD_NUMBERS;
use writing::handed;

// An output, and how many of its bytes are written. Each method writes behind them.
#[derive(Drop)]
struct Writer<'a> {
    out: &'a mut [u8],
    at: usize,
}

impl Writer<'_> {
    // Some bytes as they are. With `copy_from_slice`, which asks at each line whether the bytes overlap, a
    // whole text takes 6 % more instructions (bench/run).
    fn bytes(&mut self, new: &[u8])
        requires { Room new.now self.old }
        ensures { Wrote new.now self.old self.new }
    {
        for byte in new {
            self.out[self.at] = *byte;
            self.at += 1;
        }
    }

    // A number, and a byte after it.
    fn number(&mut self, n: u32, end: u8)
        requires { Room (ended n end) self.old }
        ensures { Wrote (ended n end) self.old self.new }
    {
        let next = self.at + digits::spell(n, &mut self.out[self.at..]);
        self.out[next] = end;
        self.at = next + 1;
    }

    // A line: its start, and three numbers.
    fn line(&mut self, start: &[u8], a: u32, b: u32, c: u32)
        requires { Room (line_of start.now a b c) self.old }
        ensures { Wrote (line_of start.now a b c) self.old self.new }
    {
        self.bytes(start);
        self.number(a, b' ');
        self.number(b, b' ');
        self.number(c, b'\n');
    }

    // A corner's line.
    fn corner(&mut self, p: UVec3)
        requires { Room (spec.bytes (corner_line p)) self.old }
        ensures { Wrote (spec.bytes (corner_line p)) self.old self.new }
    {
        self.line(b"v ", p.x, p.y, p.z);
    }

    // A triangle's line: its vertex numbers, counted from 1.
    fn triangle(&mut self, a: VertexIndex, b: VertexIndex, c: VertexIndex)
        requires a_bound { (a.0 < 4_294_967_295) × (b.0 < 4_294_967_295) × (c.0 < 4_294_967_295) }
        requires room { Room (spec.bytes (triangle_line ((a.0 + 1) ∷ (b.0 + 1) ∷ (c.0 + 1) ∷ []))) self.old }
        ensures { Wrote (spec.bytes (triangle_line ((a.0 + 1) ∷ (b.0 + 1) ∷ (c.0 + 1) ∷ []))) self.old self.new }
    {
        self.line(b"f ", a.0 + 1, b.0 + 1, c.0 + 1);
    }

    // The lines of a quad's corners.
    fn corners(&mut self, quad: Quad)
        requires { Room (bytes_of (corner_lines (on quad.face quad.quad))) self.old }
        ensures { Wrote (bytes_of (corner_lines (on quad.face quad.quad))) self.old self.new }
    {
        let corners = quad.face.quad_corners(quad.quad).unwrap();
        self.corner(corners.minu_minv);
        self.corner(corners.maxu_minv);
        self.corner(corners.minu_maxv);
        self.corner(corners.maxu_maxv);
    }

    // The lines of its triangles.
    fn triangles(&mut self, quad: Quad)
        requires { Room (bytes_of (triangle_lines quad.number (on quad.face quad.quad))) self.old }
        ensures { Wrote (bytes_of (triangle_lines quad.number (on quad.face quad.quad))) self.old self.new }
    {
        let i = quad
            .face
            .quad_mesh_indices(VertexIndex(4 * quad.number))
            .unwrap();
        self.triangle(i.0, i.1, i.2);
        self.triangle(i.3, i.4, i.5);
    }

    // The six lines of a quad.
    fn quad(&mut self, quad: Quad)
        requires { Room (quad_text quad.number (on quad.face quad.quad)) self.old }
        ensures { Wrote (quad_text quad.number (on quad.face quad.quad)) self.old self.new }
    {
        self.corners(quad);
        self.triangles(quad);
    }

    // The lines of a group.
    fn group(&mut self, group: &Group)
        requires { Room (group_text group.now.quads.now group.now.face group.now.first group.now.count) self.old }
        ensures { Wrote (group_text group.now.quads.now group.now.face group.now.first group.now.count) self.old self.new }
    {
        for k in group.first..group.first + group.count {
            let from = k * QUAD_NUMBERS;
            self.quad(Quad {
                face: group.face,
                quad: handed::quad_from(&group.quads[from..from + QUAD_NUMBERS]),
                number: k as u32,
            });
        }
    }
}

// The text of a mesh, from the start of an output that has room for it. It answers how many bytes it has.
pub(crate) fn mesh(mesh: &Mesh, out: &mut [u8]) -> usize
    requires { length (obj_text mesh.now.faces mesh.now.counts mesh.now.quads.now) ≤ length out.old }
    ensures value { result ≡ length (obj_text mesh.now.faces mesh.now.counts mesh.now.quads.now) }
    ensures out_after { out.new ≡ overwritten (obj_text mesh.now.faces mesh.now.counts mesh.now.quads.now) out.old }
{
    let mut writer = Writer { out, at: 0 };
    writer.bytes(b"o mesh\n");
    let mut first = 0;
    for (face, count) in mesh.faces.iter().zip(&mesh.counts) {
        let count = *count as usize;
        writer.group(&Group {
            face: *face,
            quads: mesh.quads,
            first,
            count,
        });
        first += count;
    }
    writer.at
}
