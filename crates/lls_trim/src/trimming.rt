// What a trim comes to.
use lls_prooflog::Log;

/// What a trim comes to.
#[derive(Drop)]
pub struct Trimming {
    /// The trimmed proof.
    pub log: Log,
    /// How many additions the given proof has, up to and with its first empty clause.
    pub additions: usize,
}
