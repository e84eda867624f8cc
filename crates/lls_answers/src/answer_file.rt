// A file that an answer writes.
use crate::bytes::Bytes;
use lls_base::Name;

/// A file that an answer writes.
#[derive(Drop)]
pub struct AnswerFile {
    pub name: Name,
    pub bytes: Bytes,
}
