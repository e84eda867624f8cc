//! Run length encoded patterns (RLE): generations of two-state cells as Life programs exchange them.
#![tactic(auto)]

mod header;
mod item;
mod parts;
mod pictures;
mod pictures_error;
mod pictures_fault;
mod print;
mod read;
mod reader;
mod rle_error;
mod rle_fault;
mod tokens;

pub use pictures::read_pictures;
pub use pictures_error::PicturesError;
pub use pictures_fault::PicturesFault;
pub use print::print_rle;
pub use read::read_rle;
pub use reader::MOST_BYTES;
pub use rle_error::RleError;
pub use rle_fault::RleFault;
