// Numbers of 32 bits in bytes, low byte first.
ghost use Rattle.std.specs.Prelude.{◌≡◌, ◌≤◌, length};
ghost use Rattle.saved.specs.Bytes.{number32, written32};

// How many bytes a number has.
pub(crate) const BYTES: usize = 4;

// The number that some bytes begin with.
pub(crate) fn get(bytes: &[u8]) -> u32
    requires { 4 ≤ length bytes.now }
    ensures { result ≡ number32 bytes.now }
{
    u32::from_le_bytes([bytes[0], bytes[1], bytes[2], bytes[3]])
}

// Writes a number into its bytes.
pub(crate) fn put(n: u32, out: &mut [u8])
    requires { length out.old ≡ 4 }
    ensures { out.new ≡ written32 n }
{
    out.copy_from_slice(&n.to_le_bytes());
}
