// Preference lists in the square of bands: what one list says, and what joints do to the lists. Each function is an equation
// with a definition of the crate roommates. For the crates above, which prove what they require.
// The count of joints and the square go as two, here and above, also where the square is only read: it is a working's, and a struck square
// keeps no promise, so it is no `Rankings`, and a struct of the two would have no invariant to say.
// A joint is a plain number with its bound in clauses (`q < 128`) and no type, which would be no plainer: a loop's number is an index at
// once, and a joint of a type would have to be made of it in each turn.
#![tactic(auto)]

pub mod rows;
pub mod strikes;
