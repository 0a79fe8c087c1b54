//! A line cut into its fields.
ghost use Rattle.std.specs.Prelude.{map, IfOk};
ghost use Rattle.fields.specs.Cutting.{Cut};

use std::alloc::{AllocError, Global};

/// The pieces of a line between its blanks.
pub fn pieces<'a>(heap: Global, line: &'a str) -> Result<Vec<&'a str>, AllocError>
    ensures { IfOk result (λ v. Cut line.now (map (λ x. x.now) v.items)) }
{
    line.split(' ').collect(heap)
}
