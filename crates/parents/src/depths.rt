// The depth of a joint.
ghost use Rattle.std.specs.Prelude.{◌≡◌, ◌≤◌, ◌<◌, length};
ghost use Rattle.parents.specs.Claims.{Lower};
ghost use Rattle.parents.specs.Depths.{depth_of};

use crate::parent;

// One more than the parent's, and nought at a root. A parent is lower, so the joint number falls at each call.
pub fn depth(parents: &[u8], joint: usize) -> usize
    requires { Lower parents.now × (joint < length parents.now) }
    ensures value { result ≡ depth_of parents.now joint }
    ensures upper_bound { result ≤ joint }
{
    let Some(above) = parent(parents, joint) else {
        return 0;
    };
    depth(parents, above) + 1
}
