// The buffers of a run. Each `ensures` gives only the length, which lending the array as a slice
// needs.
ghost use Rattle.std.specs.Prelude.{◌≡◌, length};

// For the bytes of the largest file that this command takes, and one more.
pub fn bytes() -> [u8; 2621475]
    ensures { 2621475 ≡ length result }
{
    [0; 2621475]
}

// For the numbers of its quads.
pub fn quads() -> [u32; 655360]
    ensures { 655360 ≡ length result }
{
    [0; 655360]
}

// For the text of a mesh.
pub fn text() -> [u8; 3000000]
    ensures { 3000000 ≡ length result }
{
    [0; 3000000]
}
