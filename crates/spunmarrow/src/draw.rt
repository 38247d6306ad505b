// The calls of the drawing code, over crate geometry. Each answers the refusal number, or 0 where
// it is accepted, and then writes all of `out`; a refusal leaves `out` as it was.
ghost use Rattle.std.specs.Prelude.{◌≡◌, List, ℕ, Float};
ghost use Rattle.geometry.specs.Answers.{meaning};
ghost use Rattle.spunmarrow.specs.Draw.{told, written, corner_call, corners_call, normal_call, indices_call, tex_coords_call};

use crate::numbers;
use geometry::face::VertexIndex;
use geometry::refusal::Refusal;

// Tells C what a call gave: its numbers, and 0, or the refusal number, and the output is as it was.
fn tell<T: Copy, const N: usize>(gave: Result<[T; N], Refusal>, out: &mut [T; N]) -> u32
    ensures { told result out.new ≡ written (λ numbers. numbers) (meaning gave) out.old }
{
    match gave {
        Ok(numbers) => {
            *out = numbers;
            0
        }
        Err(refusal) => u32::from(refusal.reason),
    }
}

// The three numbers of a corner's position.
fn corner(
    sign: i32,
    permutation: u32,
    quad: &[u32; 5],
    corner: u32,
    voxel_size: f32,
) -> Result<[f32; 3], Refusal>
    ensures { (out : List Float) → written (λ numbers. numbers) (meaning result) out ≡ corner_call sign permutation quad.now corner voxel_size out }
{
    let face = numbers::face(sign, permutation)?;
    let which = numbers::corner(corner)?;
    let at = face.quad_mesh_position(numbers::quad(quad), which, voxel_size)?;
    Ok([at.x, at.y, at.z])
}

// The position of one corner of a quad: three numbers. Refuses by 17, then 6, then 12, then 14.
pub fn spunmarrow_corner(
    sign: i32,
    permutation: u32,
    quad: &[u32; 5],
    corner: u32,
    voxel_size: f32,
    out: &mut [f32; 3],
) -> u32
    ensures { told result out.new ≡ corner_call sign permutation quad.now corner voxel_size out.old }
{
    tell(
        self::corner(sign, permutation, quad, corner, voxel_size),
        out,
    )
}

// The twelve numbers of a quad's corners.
fn corners(sign: i32, permutation: u32, quad: &[u32; 5]) -> Result<[u32; 12], Refusal>
    ensures { (out : List ℕ) → written (λ numbers. numbers) (meaning result) out ≡ corners_call sign permutation quad.now out }
{
    let face = numbers::face(sign, permutation)?;
    let corners = face.quad_corners(numbers::quad(quad))?;
    let a = corners.minu_minv;
    let b = corners.maxu_minv;
    let c = corners.minu_maxv;
    let d = corners.maxu_maxv;
    Ok([a.x, a.y, a.z, b.x, b.y, b.z, c.x, c.y, c.z, d.x, d.y, d.z])
}

// The four corners of a quad: twelve numbers. Refuses by 17, then 6, then 12.
pub fn spunmarrow_corners(sign: i32, permutation: u32, quad: &[u32; 5], out: &mut [u32; 12]) -> u32
    ensures { told result out.new ≡ corners_call sign permutation quad.now out.old }
{
    tell(corners(sign, permutation, quad), out)
}

// The three numbers of a face's normal.
fn normal(sign: i32, permutation: u32) -> Result<[f32; 3], Refusal>
    ensures { (out : List Float) → written (λ numbers. numbers) (meaning result) out ≡ normal_call sign permutation out }
{
    let face = numbers::face(sign, permutation)?;
    let normals = face.quad_mesh_normals()?;
    let n = normals.minu_minv;
    Ok([n.x, n.y, n.z])
}

// The normal of a face: three numbers. Refuses by 17, then 6.
pub fn spunmarrow_normal(sign: i32, permutation: u32, out: &mut [f32; 3]) -> u32
    ensures { told result out.new ≡ normal_call sign permutation out.old }
{
    tell(normal(sign, permutation), out)
}

// The six vertex numbers of a quad's triangles.
fn indices(sign: i32, permutation: u32, start: u32) -> Result<[u32; 6], Refusal>
    ensures { (out : List ℕ) → written (λ numbers. numbers) (meaning result) out ≡ indices_call sign permutation start out }
{
    let face = numbers::face(sign, permutation)?;
    let i = face.quad_mesh_indices(VertexIndex(start))?;
    Ok([i.0.0, i.1.0, i.2.0, i.3.0, i.4.0, i.5.0])
}

// The vertex numbers of a quad's two triangles: six numbers. Refuses by 17, then 6, then 13.
pub fn spunmarrow_indices(sign: i32, permutation: u32, start: u32, out: &mut [u32; 6]) -> u32
    ensures { told result out.new ≡ indices_call sign permutation start out.old }
{
    tell(indices(sign, permutation, start), out)
}

// The eight numbers of a quad's texture pairs.
fn tex_coords(
    sign: i32,
    permutation: u32,
    u_flip_axis: u32,
    flip_v: bool,
    quad: &[u32; 5],
) -> Result<[f32; 8], Refusal>
    ensures { (out : List Float) → written (λ numbers. numbers) (meaning result) out ≡ tex_coords_call sign permutation u_flip_axis flip_v quad.now out }
{
    let face = numbers::face(sign, permutation)?;
    let axis = numbers::axis(u_flip_axis)?;
    let pairs = face.tex_coords(axis, flip_v, numbers::quad(quad))?;
    let a = pairs.minu_minv;
    let b = pairs.maxu_minv;
    let c = pairs.minu_maxv;
    let d = pairs.maxu_maxv;
    Ok([a.u, a.v, b.u, b.v, c.u, c.v, d.u, d.v])
}

// The texture pairs of a quad's four corners: eight numbers. Refuses by 17, then 6, then 12.
pub fn spunmarrow_tex_coords(
    sign: i32,
    permutation: u32,
    u_flip_axis: u32,
    flip_v: bool,
    quad: &[u32; 5],
    out: &mut [f32; 8],
) -> u32
    ensures { told result out.new ≡ tex_coords_call sign permutation u_flip_axis flip_v quad.now out.old }
{
    tell(
        tex_coords(sign, permutation, u_flip_axis, flip_v, quad),
        out,
    )
}
