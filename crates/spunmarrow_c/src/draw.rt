// The calls of the drawing code. Each answers the refusal number, or 0 where it is accepted, and then writes
// all of `out`; a refusal leaves `out` as it was.
ghost use Rattle.std.specs.Prelude.{◌≡◌};
ghost use Rattle.spunmarrow.specs.Draw.{told, corner_call, corners_call, normal_call, indices_call, tex_coords_call};

// The position of one corner of a quad: three numbers. Refuses by 17, then 6, then 12, then 14.
#[unsafe(no_mangle)]
pub extern "C" fn spunmarrow_corner(
    sign: i32,
    permutation: u32,
    quad: &[u32; 5],
    corner: u32,
    voxel_size: f32,
    out: &mut [f32; 3],
) -> u32
    ensures { told result out.new ≡ corner_call sign permutation quad.now corner voxel_size out.old }
{
    spunmarrow::draw::spunmarrow_corner(sign, permutation, quad, corner, voxel_size, out)
}

// The four corners of a quad: twelve numbers. Refuses by 17, then 6, then 12.
#[unsafe(no_mangle)]
pub extern "C" fn spunmarrow_corners(
    sign: i32,
    permutation: u32,
    quad: &[u32; 5],
    out: &mut [u32; 12],
) -> u32
    ensures { told result out.new ≡ corners_call sign permutation quad.now out.old }
{
    spunmarrow::draw::spunmarrow_corners(sign, permutation, quad, out)
}

// The normal of a face: three numbers. Refuses by 17, then 6.
#[unsafe(no_mangle)]
pub extern "C" fn spunmarrow_normal(sign: i32, permutation: u32, out: &mut [f32; 3]) -> u32
    ensures { told result out.new ≡ normal_call sign permutation out.old }
{
    spunmarrow::draw::spunmarrow_normal(sign, permutation, out)
}

// The vertex numbers of a quad's two triangles: six numbers. Refuses by 17, then 6, then 13.
#[unsafe(no_mangle)]
pub extern "C" fn spunmarrow_indices(
    sign: i32,
    permutation: u32,
    start: u32,
    out: &mut [u32; 6],
) -> u32
    ensures { told result out.new ≡ indices_call sign permutation start out.old }
{
    spunmarrow::draw::spunmarrow_indices(sign, permutation, start, out)
}

// The texture pairs of a quad's four corners: eight numbers. Refuses by 17, then 6, then 12.
#[unsafe(no_mangle)]
pub extern "C" fn spunmarrow_tex_coords(
    sign: i32,
    permutation: u32,
    u_flip_axis: u32,
    flip_v: bool,
    quad: &[u32; 5],
    out: &mut [f32; 8],
) -> u32
    ensures { told result out.new ≡ tex_coords_call sign permutation u_flip_axis flip_v quad.now out.old }
{
    spunmarrow::draw::spunmarrow_tex_coords(sign, permutation, u_flip_axis, flip_v, quad, out)
}
