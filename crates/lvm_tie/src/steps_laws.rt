//! Laws of the ends of the transfers by which a copy is brought up: each leaves a tied session tied. Each call does
//! nothing: its contract is the law.
ghost use Rattle.lvm_tie.specs.Steps.{CopyEndTies, CopyGroupTies, CopyMissTies, CopyQuitTies, CopyReadEndTies, CopyWriteFailTies};

/// A transfer of a copy that had ended before leaves a tied session tied where it ends, on a shelf whose sectors have
/// 512 bytes.
pub fn copy_quit_ties()
    ensures { CopyQuitTies }
{}

/// So does a write that fails, and the copy with it.
pub fn copy_write_fail_ties()
    ensures { CopyWriteFailTies }
{}

/// So does a read that ends well.
pub fn copy_read_end_ties()
    ensures { CopyReadEndTies }
{}

/// So does a read that fails: another source follows, or the copy ends.
pub fn copy_miss_ties()
    ensures { CopyMissTies }
{}

/// So does a write that ends well: the next track group follows, or the clearing of the copy.
pub fn copy_group_ties()
    ensures { CopyGroupTies }
{}

/// So does each end of such a transfer.
pub fn copy_end_ties()
    ensures { CopyEndTies }
{}
