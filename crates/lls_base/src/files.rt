// Files by name in a list, as a shelf in memory keeps them.
ghost use Rattle.std.specs.Prelude.{◌≡◌, ◌<◌, [], length, IfOk, IfNone, IfSome, OnOk, OnErr};
ghost use Rattle.std.specs.Option.{option_map};
ghost use Rattle.std.specs.FinMap as map;
ghost use Rattle.lls_base.specs.Shelf.{append_file};
ghost use Rattle.lls_base.specs.Files.{files_of, name_at, IsFirst, IsNowhere};

use crate::Name;
use std::alloc::{AllocError, Global};

// The first place of a name.
fn place(files: &[(Name, Vec<u8>)], name: &str) -> Option<usize>
    ensures first { IfSome result (IsFirst name.now files.now) }
    ensures nowhere { IfNone result (IsNowhere name.now files.now) }
{
    for (i, file) in files.iter().enumerate() {
        if file.0.text() == name {
            return Some(i);
        }
    }
    None
}

/// The bytes for which a name stands.
pub fn stored<'a>(files: &'a [(Name, Vec<u8>)], name: &str) -> Option<&'a [u8]>
    ensures { option_map (λ bytes. bytes.now) result ≡ map.get (files_of files.now) name.now }
{
    let at = place(files, name)?;
    Some(&files[at].1)
}

/// Makes a name stand for no bytes, and answers its place.
pub fn empty_file(
    alloc: Global,
    files: &mut Vec<(Name, Vec<u8>)>,
    name: &str,
) -> Result<usize, AllocError>
    ensures emptied { OnOk result (files_of files.new.items ≡ map.insert (files_of files.old.items) name.now []) }
    ensures first { IfOk result (IsFirst name.now files.new.items) }
    ensures err { OnErr result (files_of files.new.items ≡ files_of files.old.items) }
{
    if let Some(at) = place(files, name) {
        let file = &mut files[at];
        file.1.clear();
        return Ok(at);
    }
    let text = String::from_str(alloc, name)?;
    let at = files.len();
    files.push((Name::new(text), Vec::new(alloc)))?;
    Ok(at)
}

/// Appends to the bytes at a place, which is the first of its name.
pub fn append_at(
    files: &mut Vec<(Name, Vec<u8>)>,
    at: usize,
    bytes: &[u8],
) -> Result<(), AllocError>
    requires { IsFirst (name_at files.old.items at) files.old.items at }
    ensures appended { OnOk result
        (files_of files.new.items ≡ append_file (files_of files.old.items) (name_at files.old.items at) bytes.now) }
    ensures err { OnErr result (files_of files.new.items ≡ files_of files.old.items) }
    ensures first { IsFirst (name_at files.old.items at) files.new.items at }
{
    let file = &mut files[at];
    file.1.extend_from_slice(bytes)
}
