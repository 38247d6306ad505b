// What only the calls of the meshers are given.
pub use calls::given::Given;

// A voxel.
pub fn voxel(given: &mut Given<'_>) -> u16 {
    (given.number() % 65536) as u16
}
