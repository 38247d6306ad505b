// A block's voxels and places, and what a mesher checks of its numbers.
use crate::given::{self, Given};
use calls::show;
use std::io::{self, Write};
use voxels::index::{Stride, VoxelIndex};
use voxels::{bounds, voxel};

// A voxel and its neighbor: the voxel's class and merge value, where its class begins, whether it
// shows its face to the neighbor, and whether the two may share a quad.
pub fn seen(out: &mut impl Write, given: &mut Given<'_>) -> io::Result<()> {
    let v = given::voxel(given);
    let neighbor = given::voxel(given);
    let class = voxel::class(v);
    let merge_value = voxel::merge_value(v);
    let sight = voxel::sight(v);
    let shows = u8::from(voxel::shows_face(v, neighbor));
    let uniform = u8::from(voxel::uniform(neighbor, v));
    write!(out, " {class} {merge_value} {sight} {shows} {uniform}")
}

// A shape, a point, a face and an axis: the point's index, the axis' stride, the offset of the face
// over that stride, and the index that it leads to.
pub fn neighbor(out: &mut impl Write, given: &mut Given<'_>) -> io::Result<()> {
    let shape = given.point();
    let point = given.point();
    let face = given.face(out)?;
    let index = VoxelIndex::linearize(shape, point);
    let stride = Stride::new(shape, given.axis());
    let offset = Stride::visibility_offset(face, stride);
    let beyond = index.offset(offset);
    write!(out, " {} {} {} {}", index.0, stride.0, offset.0, beyond.0)
}

// How many voxels or bytes are lent, a shape and a box: checks 1, 2 and 7 each by itself, and then 1
// to 5 in their order.
pub fn checks(out: &mut impl Write, given: &mut Given<'_>) -> io::Result<()> {
    let lent = given.number() as usize;
    let shape = given.point();
    let low = given.point();
    let high = given.point();
    show::check(out, bounds::check_shape(shape))?;
    show::check(out, bounds::check_voxel_count(lent, shape))?;
    show::check(out, bounds::check_visited_count(lent, shape))?;
    show::check(out, bounds::check_bounds(lent, shape, low, high))
}
