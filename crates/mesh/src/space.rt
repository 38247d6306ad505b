// The buffers of a run, on the stack. Each `ensures` gives only the length, which lending a part of the
// array needs.
ghost use Rattle.std.specs.Prelude.{◌≡◌, length};

// For the bytes of the largest block that this command takes, and one more.
pub fn bytes() -> [u8; 524289]
    ensures { 524289 ≡ length result }
{
    [0; 524289]
}

// For its voxels.
pub fn voxels() -> [u16; 262144]
    ensures { 262144 ≡ length result }
{
    [0; 262144]
}

// For the numbers of as many unit quads as this command lists, which are 131,072.
pub fn unit_quads() -> [u32; 393216]
    ensures { 393216 ≡ length result }
{
    [0; 393216]
}

// For the marks of greedy meshing.
pub fn visited() -> [u8; 262144]
    ensures { 262144 ≡ length result }
{
    [0; 262144]
}

// For the numbers of as many greedy quads as this command lists, which are 131,072.
pub fn greedy_quads() -> [u32; 655360]
    ensures { 655360 ≡ length result }
{
    [0; 655360]
}

// For the most bytes of OBJ text that this command writes.
pub fn text() -> [u8; 3000000]
    ensures { 3000000 ≡ length result }
{
    [0; 3000000]
}
