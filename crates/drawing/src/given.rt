// What only the calls of the drawing code are given.
pub use calls::given::Given;
use geometry::quad::UnorientedQuad;
use std::num;

// An f32 number, by its bits. A NaN is one value here, whatever its bits.
pub fn float(given: &mut Given<'_>) -> f32 {
    num::f32_from_bits_with_nan(given.number())
}

// A quad: its minimum, width and height.
pub fn quad(given: &mut Given<'_>) -> UnorientedQuad {
    let minimum = given.point();
    let width = given.number();
    let height = given.number();
    UnorientedQuad {
        minimum,
        width,
        height,
    }
}
