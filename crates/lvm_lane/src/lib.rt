//! A shelf of disks that are image files of the current folder, read and written sector by sector, and a
//! sink that makes new files. Here the program meets real files; no clause says what they hold.
#![tactic(auto)]

mod exclusive;
mod image;
mod name;
mod read_buffer;
mod shelf;
mod sink;

pub use exclusive::Exclusive;
pub use image::{Image, ImageFault};
pub use name::image_name;
pub use read_buffer::ReadBuffer;
pub use shelf::FileShelf;
pub use sink::ImageSink;
