// A voxel's number: its class, its merge value, and whether it shows its face to a neighbour, after
// `VoxelVisibility` of lib.rs and `MergeVoxel` of greedy.rs.
ghost use Rattle.std.specs.Prelude.{◌≡◌, ◌*◌};
ghost use Rattle.voxels.specs.Voxel as rule;

// The classes.
pub const EMPTY: u16 = 0;

pub const TRANSLUCENT: u16 = 1;

pub const OPAQUE: u16 = 2;

pub const BAD: u16 = 3;

// A voxel is its class times this, plus its merge value.
const MERGE_VALUES: u16 = 16384;

// A voxel's class.
pub fn class(voxel: u16) -> u16
    ensures { result ≡ rule.class voxel }
{
    voxel / MERGE_VALUES
}

// A voxel's merge value.
pub fn merge_value(voxel: u16) -> u16
    ensures { result ≡ rule.merge_value voxel }
{
    voxel % MERGE_VALUES
}

// What a neighbor's number must be below for a voxel to show its face to it, if the voxel is not bad:
// where its class begins.
pub fn sight(voxel: u16) -> u16
    ensures { result ≡ rule.class voxel * rule.merge_values }
{
    class(voxel) * MERGE_VALUES
}

// Whether a voxel shows its face to its neighbor: it is not empty, and the neighbor is empty, or is
// translucent while the voxel is opaque.
pub fn shows_face(voxel: u16, neighbor: u16) -> bool
    ensures { result ≡ rule.shows voxel neighbor }
{
    let own = class(voxel);
    if own == EMPTY {
        return false;
    }
    let other = class(neighbor);
    if other == EMPTY {
        return true;
    }
    if other == TRANSLUCENT {
        return own == OPAQUE;
    }
    false
}

// Whether two voxels may share a quad.
pub fn uniform(first: u16, voxel: u16) -> bool
    ensures { result ≡ rule.uniform first voxel }
{
    merge_value(first) == merge_value(voxel)
}
