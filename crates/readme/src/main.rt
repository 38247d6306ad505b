// The functions that README shows, word for word, run as a caller runs them.
#![tactic(auto)]

use geometry::axis::SignedAxis;
use geometry::face::{Corner, OrientedBlockFace};
use geometry::quad::{UnorientedQuad, UnorientedUnitQuad};
use geometry::vector::UVec3;
use std::io;

// How many quads the top of a block of 4 by 4 by 3 takes, or 0 where it is refused. `out` gets the quads, five numbers
// each: minimum x, y, z, width, height.
pub fn roof(voxels: &[u16], visited: &mut [u8], out: &mut [u32]) -> u64 {
    let shape = UVec3 { x: 4, y: 4, z: 3 };
    let min = UVec3 { x: 0, y: 0, z: 0 };
    let max = UVec3 { x: 3, y: 3, z: 2 };
    let up = OrientedBlockFace::canonical(SignedAxis::PosZ);
    let faces = [up, up, up, up, up, up];
    match greedy::greedy_quads(voxels, shape, min, max, faces, visited, out) {
        Ok(mesh) => mesh.counts[0],
        Err(_) => 0,
    }
}

// The x of a quad's corner opposite its base, or 0 where the quad is refused.
pub fn far_x(quad: UnorientedQuad, voxel_size: f32) -> f32 {
    let face = OrientedBlockFace::canonical(SignedAxis::PosX);
    match face.quad_mesh_position(quad, Corner::MaxuMaxv, voxel_size) {
        Ok(position) => position.x,
        Err(_) => 0.0,
    }
}

// Two opaque voxels side by side have one roof. With room for five quads the call is refused.
fn roofs(rt: &impl Print) -> io::Result<()> {
    let mut voxels = [0u16; 48];
    voxels[21] = 32775;
    voxels[22] = 32775;
    let mut visited = [255u8; 48];
    let mut out = [0u32; 30];
    println!(rt; "roof: {}", roof(&voxels, &mut visited, &mut out))?;
    let mut small = [0u32; 29];
    println!(rt; "roof: {}", roof(&voxels, &mut visited, &mut small))
}

// E10's quad at the size of E15, the same without a width, and a unit quad.
fn corners(rt: &impl Print) -> io::Result<()> {
    let minimum = UVec3 { x: 1, y: 2, z: 3 };
    let quad = UnorientedQuad {
        minimum,
        width: 4,
        height: 5,
    };
    let thin = UnorientedQuad { width: 0, ..quad };
    let voxel = UVec3 { x: 9, y: 9, z: 9 };
    let unit = UnorientedQuad::from(UnorientedUnitQuad { minimum: voxel });
    for quad in [quad, thin, unit] {
        println!(rt; "far_x: {}", far_x(quad, 0.25))?;
    }
    Ok(())
}

fn main(rt: HostRuntime) -> io::Result<()> {
    roofs(&rt)?;
    corners(&rt)
}
