// Oriented block faces, and what is drawn of a quad on one, after geometry/face.rs.
//
// Any sign, quad, index and size may be handed in. A call checks only what it is given, in document
// 01's order: the face's sign (6), the quad's limits (12), then the first index (13) or the voxel
// size (14). Each check is a function of its own; `check_sign` and `check_quad` are public, so that
// other calls can put them in other orders.
ghost use Rattle.std.specs.Prelude.{◌≡◌, true, [], ◌∷◌, ◌+◌, ◌<◌, ◌≤◌, ◌^◌, pos, ◌*ℤ◌};
ghost use Rattle.geometry.specs.Refusal.{checked};
ghost use Rattle.geometry.specs.Point.{along, moved};
ghost use Rattle.geometry.specs.Axes.{positive, permutation_sign};
ghost use Rattle.geometry.specs.Quad.{largest_axis};
ghost use Rattle.geometry.specs.Checks.{proper_sign, bad_quad, bad_start, bad_size, last_start, face_checks, quad_checks, index_checks, position_checks};
ghost use Rattle.geometry.specs.Face.{new_face, canonical_face, normal, signed_normal, as_f32, normal_as_f32, quad_normals};
ghost use Rattle.geometry.specs.Corners.{base, corner, corners, quad_corners, position, positions, quad_positions, quad_position};
ghost use Rattle.geometry.specs.Vertices.{indices, quad_indices};
ghost use Rattle.geometry.specs.Textures.{flips_u, side_end, pairs, quad_textures};
ghost use Rattle.geometry.specs.Answers.{meaning};
ghost use Rattle.geometry.specs.Inner.{WithinBounds};

use crate::axis::{Axis, AxisPermutation, SignedAxis};
use crate::placed::PlacedQuad;
use crate::quad::UnorientedQuad;
use crate::refusal::{Reason, Refusal, first_refusal};
use crate::vector::{IVec3, UVec3};

// One of the six cube faces, with the order of its axes.
#[derive(Clone, Copy)]
pub struct OrientedBlockFace {
    // The side of n that the face looks to: 1 or -1. What is drawn of a face with another sign is
    // refused: a number and no enum, since any may be handed in (face_checks).
    pub n_sign: i32,
    // Which axes are n, u and v.
    pub permutation: AxisPermutation,
}

// The number of a vertex in a mesh.
#[derive(Clone, Copy)]
pub struct VertexIndex(pub u32);

// One of a quad's four corners, in the order of `quad_corners`.
#[derive(Clone, Copy)]
pub enum Corner {
    // 0: the base.
    MinuMinv,
    // 1: +u width.
    MaxuMinv,
    // 2: +v height.
    MinuMaxv,
    // 3: both.
    MaxuMaxv,
}

// What each of a quad's four corners has.
#[derive(Clone, Copy)]
pub struct PerCorner<T> {
    pub minu_minv: T,
    pub maxu_minv: T,
    pub minu_maxv: T,
    pub maxu_maxv: T,
}

// The corners of a quad.
pub type QuadCorners = PerCorner<UVec3>;

// The positions of a quad's corners.
pub type QuadPositions = PerCorner<Position>;

// The normals at a quad's corners.
pub type QuadNormals = PerCorner<Normal>;

// The texture pairs of a quad's corners.
pub type QuadTexCoords = PerCorner<TexCoord>;

// Where a vertex is drawn.
#[derive(Clone, Copy)]
pub struct Position {
    pub x: f32,
    pub y: f32,
    pub z: f32,
}

// The direction that a vertex faces. A type of its own, so that neither is taken for the other.
#[derive(Clone, Copy)]
pub struct Normal {
    pub x: f32,
    pub y: f32,
    pub z: f32,
}

// A texture pair.
#[derive(Clone, Copy)]
pub struct TexCoord {
    pub u: f32,
    pub v: f32,
}

// The vertex numbers of a quad's two triangles.
#[derive(Clone, Copy)]
pub struct QuadIndices(
    pub VertexIndex,
    pub VertexIndex,
    pub VertexIndex,
    pub VertexIndex,
    pub VertexIndex,
    pub VertexIndex,
);

// The largest first index: three more still fit.
const LAST_START: u32 = 4294967292;

impl OrientedBlockFace {
    // The face of a sign and a permutation. Refuses a sign that is neither 1 nor -1.
    pub fn new(n_sign: i32, permutation: AxisPermutation) -> Result<OrientedBlockFace, Refusal>
        ensures { meaning result ≡ new_face n_sign permutation }
    {
        let face = OrientedBlockFace {
            n_sign,
            permutation,
        };
        face.check_sign()?;
        Ok(face)
    }

    // The face toward a signed axis, with the even permutation. Never refuses.
    pub fn canonical(normal: SignedAxis) -> OrientedBlockFace
        ensures { result ≡ canonical_face normal }
    {
        let sign = normal.signum();
        let permutation = AxisPermutation::even_with_normal_axis(normal.unsigned_axis());
        OrientedBlockFace {
            n_sign: sign,
            permutation,
        }
    }

    // Check 6: the sign is 1 or -1.
    pub fn check_sign(self) -> Result<(), Refusal>
        ensures { meaning result ≡ checked (face_checks self) }
    {
        let sign = self.n_sign;
        if sign == 1 {
            return Ok(());
        }
        if sign == -1 {
            return Ok(());
        }
        Err(Reason::FaceSign.at(0))
    }

    // Check 12 by itself: the quad is within the limits along this face's u and v, whatever the
    // sign.
    pub fn check_quad(self, quad: UnorientedQuad) -> Result<(), Refusal>
        ensures { meaning result ≡ checked (bad_quad self quad ∷ []) }
    {
        if !quad.within_limits(self.permutation.axes()) {
            return Err(Reason::QuadLimits.at(0));
        }
        Ok(())
    }

    // Whether the face looks to the positive side.
    pub(crate) fn is_positive(self) -> bool
        ensures { result ≡ positive self.n_sign }
    {
        self.n_sign > 0
    }

    // What a call that draws a quad on a face checks first: 6, then 12.
    fn check_drawing(self, quad: UnorientedQuad) -> Result<(), Refusal>
        ensures { meaning result ≡ checked (quad_checks self quad) }
    {
        first_refusal(self.check_sign(), self.check_quad(quad))
    }

    // The unit vector of n times the sign. Refuses by 6.
    pub fn signed_normal(self) -> Result<IVec3, Refusal>
        ensures { meaning result ≡ signed_normal self }
    {
        self.check_sign()?;
        Ok(self.normal())
    }

    // The unit vector of n times the sign, whatever the sign.
    fn normal(self) -> IVec3
        ensures { result ≡ normal self }
    {
        let sign = self.n_sign;
        let permutation = self.permutation;
        let axes = permutation.axes();
        let n = axes.n;
        match n {
            Axis::X => IVec3 {
                x: sign,
                y: 0,
                z: 0,
            },
            Axis::Y => IVec3 {
                x: 0,
                y: sign,
                z: 0,
            },
            Axis::Z => IVec3 {
                x: 0,
                y: 0,
                z: sign,
            },
        }
    }

    // The four corners of a quad, in this order:
    //
    //     v
    //     |   2 --- 3
    //     |   |     |
    //     |   0 --- 1
    //     +----------- u
    //
    // In right-handed axes n points at the reader where the permutation is even, and away where it
    // is odd. Refuses by 6, then 12.
    pub fn quad_corners(self, quad: UnorientedQuad) -> Result<QuadCorners, Refusal>
        ensures { meaning result ≡ quad_corners self quad }
    {
        self.check_drawing(quad)?;
        Ok(PlacedQuad { face: self, quad }.corners())
    }

    // The positions of the four corners, in the order of `quad_corners`: each coordinate times the
    // voxel size. Refuses by 6, then 12, then 14.
    pub fn quad_mesh_positions(
        self,
        quad: UnorientedQuad,
        voxel_size: f32,
    ) -> Result<QuadPositions, Refusal>
        ensures { meaning result ≡ quad_positions self quad voxel_size }
    {
        self.check_placing(quad, voxel_size)?;
        Ok(PlacedQuad { face: self, quad }.positions(voxel_size))
    }

    // The position of one corner: what the drawing code asks for. Refuses by 6, then 12, then 14.
    pub fn quad_mesh_position(
        self,
        quad: UnorientedQuad,
        which: Corner,
        voxel_size: f32,
    ) -> Result<Position, Refusal>
        ensures { meaning result ≡ quad_position self quad which voxel_size }
    {
        self.check_placing(quad, voxel_size)?;
        Ok(PlacedQuad { face: self, quad }.position(which, voxel_size))
    }

    // What a call that gives positions checks: 6, then 12, then 14.
    fn check_placing(self, quad: UnorientedQuad, voxel_size: f32) -> Result<(), Refusal>
        ensures { meaning result ≡ checked (position_checks self quad voxel_size) }
    {
        first_refusal(self.check_drawing(quad), check_size(voxel_size))
    }

    // The signed normal at each of the four corners, its zeros plus zero. Refuses by 6.
    pub fn quad_mesh_normals(self) -> Result<QuadNormals, Refusal>
        ensures { meaning result ≡ quad_normals self }
    {
        self.check_sign()?;
        let normal = self.mesh_normal();
        Ok(QuadNormals {
            minu_minv: normal,
            maxu_minv: normal,
            minu_maxv: normal,
            maxu_maxv: normal,
        })
    }

    // The signed normal in f32.
    fn mesh_normal(self) -> Normal
        requires { proper_sign self.n_sign ≡ true }
        ensures { result ≡ normal_as_f32 (normal self) }
    {
        let v = self.normal();
        let x = v.x as f32;
        let y = v.y as f32;
        let z = v.z as f32;
        Normal { x, y, z }
    }

    // Two triangles over the four corners, whose vertices are numbered from `start` in the order of
    // `quad_corners`: so the next quad's first vertex is `start` plus 4. In right-handed axes both
    // triangles run counterclockwise as seen from the side that the face looks to. Refuses by 6,
    // then 13.
    pub fn quad_mesh_indices(self, start: VertexIndex) -> Result<QuadIndices, Refusal>
        ensures { meaning result ≡ quad_indices self start }
    {
        self.check_indexing(start)?;
        Ok(quad_indices(start, self.counter_clockwise()))
    }

    // What `quad_mesh_indices` checks: 6, then 13.
    fn check_indexing(self, start: VertexIndex) -> Result<(), Refusal>
        ensures { meaning result ≡ checked (index_checks self start) }
    {
        first_refusal(self.check_sign(), check_start(start))
    }

    // Whether the triangles run counterclockwise where u points right and v up.
    fn counter_clockwise(self) -> bool
        requires { proper_sign self.n_sign ≡ true }
        ensures { result ≡ positive (self.n_sign *ℤ permutation_sign self.permutation) }
    {
        let sign = self.n_sign;
        let permutation = self.permutation;
        sign * permutation.sign() > 0
    }

    // The texture pairs of the four corners, in the order of `quad_corners`, for a texture that
    // repeats at each voxel: (0,0), (w,0), (0,h), (w,h). `flip_v` swaps 0 and h. 0 and w are swapped
    // on a negative face where `u_flip_face` is not its normal axis, and on a positive one where it
    // is. Refuses by 6, then 12.
    pub fn tex_coords(
        self,
        u_flip_face: Axis,
        flip_v: bool,
        quad: UnorientedQuad,
    ) -> Result<QuadTexCoords, Refusal>
        ensures { meaning result ≡ quad_textures self u_flip_face flip_v quad }
    {
        self.check_drawing(quad)?;
        let flip_u = self.flips_u(u_flip_face);
        Ok(tex_pairs(flip_u, flip_v, quad.width, quad.height))
    }

    // Whether u is flipped.
    fn flips_u(self, u_flip_face: Axis) -> bool
        requires { proper_sign self.n_sign ≡ true }
        ensures { result ≡ flips_u self u_flip_face }
    {
        let permutation = self.permutation;
        let axes = permutation.axes();
        let n = axes.n;
        if self.n_sign < 0 {
            return u_flip_face != n;
        }
        u_flip_face == n
    }
}

// Check 14: the voxel size is a number and not infinite.
fn check_size(voxel_size: f32) -> Result<(), Refusal>
    ensures { meaning result ≡ checked (bad_size voxel_size ∷ []) }
{
    if !voxel_size.is_finite() {
        return Err(Reason::VoxelSize.at(0));
    }
    Ok(())
}

// Check 13: three more vertex numbers fit after the first.
fn check_start(start: VertexIndex) -> Result<(), Refusal>
    ensures { meaning result ≡ checked (bad_start start ∷ []) }
{
    let first = start.0;
    if LAST_START < first {
        return Err(Reason::ManyVertices.at(0));
    }
    Ok(())
}

// The vertex numbers of two triangles.
fn quad_indices(start: VertexIndex, counter_clockwise: bool) -> QuadIndices
    requires { start.0 ≤ last_start }
    ensures { result ≡ indices counter_clockwise start.0 }
{
    let s = start.0;
    if counter_clockwise {
        QuadIndices(
            VertexIndex(s),
            VertexIndex(s + 1),
            VertexIndex(s + 2),
            VertexIndex(s + 1),
            VertexIndex(s + 3),
            VertexIndex(s + 2),
        )
    } else {
        QuadIndices(
            VertexIndex(s),
            VertexIndex(s + 2),
            VertexIndex(s + 1),
            VertexIndex(s + 1),
            VertexIndex(s + 2),
            VertexIndex(s + 3),
        )
    }
}

// The texture pairs of a quad, with each side flipped or not.
fn tex_pairs(flip_u: bool, flip_v: bool, width: u32, height: u32) -> QuadTexCoords
    requires { (width ≤ largest_axis) × (height ≤ largest_axis) }
    ensures { result ≡ pairs flip_u flip_v width height }
{
    let min_u = side_end(flip_u, width);
    let max_u = side_end(!flip_u, width);
    let min_v = side_end(flip_v, height);
    let max_v = side_end(!flip_v, height);
    QuadTexCoords {
        minu_minv: TexCoord { u: min_u, v: min_v },
        maxu_minv: TexCoord { u: max_u, v: min_v },
        minu_maxv: TexCoord { u: min_u, v: max_v },
        maxu_maxv: TexCoord { u: max_u, v: max_v },
    }
}

// A texture coordinate at an end of a side: the side's length at the far end, and 0 at the other.
fn side_end(far: bool, side: u32) -> f32
    requires { side ≤ largest_axis }
    ensures { result ≡ as_f32 (pos (side_end far side)) }
{
    if far { side as f32 } else { 0.0 }
}
