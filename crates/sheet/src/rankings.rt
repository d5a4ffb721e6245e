// The rankings of an accepted sheet.
ghost use Rattle.square.specs.Square.{SquarePromise};

use sections::Joints;

// How many joints there are, and the square of their mutual listings.
#[derive(Clone, Copy)]
pub struct Rankings {
    pub joints: Joints,
    pub bands: [[u8; 128]; 128],
    ghost promise: { SquarePromise joints.count bands },
}
