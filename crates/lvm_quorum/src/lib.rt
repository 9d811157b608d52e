//! What stands on the disks of a shelf, as reads find it: the newest records of each, and its note; and
//! which group a name chooses by it.
#![tactic(auto)]

mod area;
pub mod below;
mod choice;
mod found;
mod groups;
mod laws;
mod names;
mod row;
mod shown;
mod survey;

pub use area::{RecordArea, read_area, read_descriptor};
pub use choice::{Choice, ChooseFault, choose};
pub use groups::sectors_needed;
pub use laws::shown_records_are_valid;
pub use row::{Survey, SurveyRow};
pub use survey::{Surveyed, survey_disks};
