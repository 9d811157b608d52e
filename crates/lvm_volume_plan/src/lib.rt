//! What stands against a volume that is to be made, removed or split, or against copies of it that are to be added
//! or removed, and the descriptor with it.
#![tactic(auto)]

pub mod below;
mod copies;
mod fault;
mod new_volume;
mod next;
mod split;
mod with_copies;

pub use copies::{MoreCopies, has_usable, prepare_fewer};
pub use fault::GroupFault;
pub use new_volume::{NewVolume, VolumePlan, has_room, prepare_without, takes_commands};
pub use split::{SplitPlan, check_copies, is_passive};
pub use with_copies::copies_at;
