// The buffers of a run. Each `ensures` gives only the length, which lending the array as a slice
// needs.
ghost use Rattle.std.specs.Prelude.{◌≡◌, length};

// For the text of a list, and one byte more.
pub fn text() -> [u8; 262144]
    ensures { 262144 ≡ length result }
{
    [0; 262144]
}

// For the numbers of a record.
pub fn numbers() -> [u32; 512]
    ensures { 512 ≡ length result }
{
    [0; 512]
}

// For the voxels of a call.
pub fn voxels() -> [u16; 4096]
    ensures { 4096 ≡ length result }
{
    [0; 4096]
}

// For the visited bytes of a call.
pub fn visited() -> [u8; 4096]
    ensures { 4096 ≡ length result }
{
    [0; 4096]
}

// For the output of a call.
pub fn output() -> [u32; 4096]
    ensures { 4096 ≡ length result }
{
    [0; 4096]
}
