//! Laws of lines of ranges. The call does nothing: its contract is the law.
ghost use Rattle.lvm_range_lines.specs.Causes.{PostsHaveCauses};

/// Where a session goes on, a post of it is answered otherwise than well only where a transfer has failed since the session
/// began, or where no copy of the logical partition of one of its requests could be used then.
pub fn posts_have_causes()
    ensures { PostsHaveCauses }
{}
