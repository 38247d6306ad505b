// Three numbers, one for each axis: what glam's `UVec3` and `IVec3` are in the Rust.

// A point, or a step to one.
#[derive(Clone, Copy)]
pub struct UVec3 {
    pub x: u32,
    pub y: u32,
    pub z: u32,
}

// A signed step.
#[derive(Clone, Copy)]
pub struct IVec3 {
    pub x: i32,
    pub y: i32,
    pub z: i32,
}
