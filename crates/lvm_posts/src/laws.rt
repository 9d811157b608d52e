//! Laws: what a session that is over leaves of its ranges.
ghost use Rattle.lvm_posts.specs.Posts.{OverSessionsHaveAnswered};

/// The history that a session leaves which is over has the answers of each range that its table holds: they can be
/// taken from it.
pub fn over_sessions_have_answered()
    ensures { OverSessionsHaveAnswered }
{}
