// The outside of a run: the files, the standard output and the standard error.

/// The outside of a run: the files, the standard output and the standard error, borrowed for as long as it runs.
#[derive(Drop)]
pub struct Outside<'s, 'o, 'e, S, O, E> {
    pub shelf: &'s mut S,
    pub out: &'o mut O,
    pub err: &'e mut E,
}
