// Why a call refuses, and what a check of any crate answers.
//
// A call asks its checks in an order, and the first that refuses decides: `?` hands a refusal on.
ghost use Rattle.std.specs.Prelude.{◌≡◌};
ghost use Rattle.geometry.specs.Answers.{number, first_refused};

// Why a call refuses. The numbers are document 01's; 15, 16 and 24 are document 02's, and 17 is ours
// (docs/DECISIONS.md).
#[derive(Clone, Copy, Debug, PartialEq, Eq)]
pub enum Reason {
    // An axis of the shape is 0 or above `LARGEST_AXIS`.
    Shape = 1,
    // Fewer voxels are lent than the shape has.
    FewVoxels = 2,
    // Min is above max on an axis.
    MinAboveMax = 3,
    // Max is at or past the shape on an axis.
    MaxPastShape = 4,
    // Min equals max on an axis.
    MinIsMax = 5,
    // A face's sign is neither 1 nor -1.
    FaceSign = 6,
    // A visited buffer is shorter than the shape has voxels.
    FewVisited = 7,
    // A bad voxel lies in the box.
    BadVoxel = 8,
    // There are more quads than the output holds.
    ManyQuads = 9,
    // A signed axis from sign 0, or from the zero vector.
    NoDirection = 10,
    // A vector with two or more nonzero parts.
    ManyDirections = 11,
    // A quad outside the limits: its minimum is below `LARGEST_AXIS` on each axis, its sides are at
    // least 1, and none ends past `LARGEST_AXIS`.
    QuadLimits = 12,
    // The vertices would have numbers past 32 bits: a first index above 4,294,967,292, which leaves no
    // room for three more, or a mesh of more than 1,073,741,823 quads.
    ManyVertices = 13,
    // A voxel size that is NaN or infinite.
    VoxelSize = 14,
    // The output is shorter than what is to be written.
    ShortOutput = 15,
    // The bytes of a file end early, are another form's, or go on behind its last section.
    File = 16,
    // A number that stands for nothing: a permutation's that is not 0 to 5 and, in the calls from C, a
    // corner's that is not 0 to 3 or an axis' that is not 0 to 2.
    NoSuchNumber = 17,
    // The counts sum to more quads than the list holds.
    Counts = 24,
}

// The reason's number.
impl From<Reason> for u32 {
    ghost from_gives = { λ reason n. n ≡ number reason };

    fn from(reason: Reason) -> u32 {
        reason as u32
    }
}

// A refusal: its reason, and the place that it speaks of. Geometry's own have place 0.
#[derive(Clone, Copy, Debug, PartialEq, Eq)]
pub struct Refusal {
    pub reason: Reason,
    pub place: u64,
}

impl Reason {
    // The refusal for this reason at a place.
    pub fn at(self, place: u64) -> Refusal
        ensures { result ≡ record { reason = self; place = place } }
    {
        Refusal {
            reason: self,
            place,
        }
    }
}

// The first of two checks that refuses, whatever a refusal is.
pub fn first_refusal<E: Drop>(first: Result<(), E>, second: Result<(), E>) -> Result<(), E>
    ensures { result ≡ first_refused first second }
{
    first.and(second)
}
