// Why a text is no list of pictures.
use crate::RleFault;
use std::error::Error;
use std::fmt;

/// Why a text is no list of pictures of a size. Pictures count from 0.
#[derive(Clone, Copy, Debug, PartialEq, Eq)]
pub enum PicturesFault {
    /// This picture isn't read, for that cause, whose lines are those of the whole text.
    Picture(u64, RleFault),
    /// So many pictures, which is one more than there is room for.
    TooMany(u64),
}

impl fmt::Display for PicturesFault {
    ghost use Rattle.std.specs.Prelude.{Some};
    ghost use Rattle.lls_rle.specs.FaultText.{pictures_fault_text};

    ghost output = { λ fault. Some (pictures_fault_text fault) };

    fn fmt<W: fmt::Write>(&self, f: &mut fmt::Formatter<W>) -> fmt::Result {
        match self {
            PicturesFault::Picture(n, fault) => write!(f, "Picture {n} {fault}"),
            PicturesFault::TooMany(n) => write!(f, "TooMany {n}"),
        }
    }
}

impl Error for PicturesFault {}
