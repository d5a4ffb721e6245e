// The parents of joints: the section of a sheet that has them, and the depth of a joint. For the crates above, which prove what they require.
#![tactic(auto)]

mod depths;
mod parent_section;

pub use depths::depth;
pub use parent_section::{parents_extent, read_third};
// a joint's parent, unless it is a root
pub use sections::joint_in as parent;
