// The check of a proof whose file is read piece by piece, and never held whole.
ghost use Rattle.std.specs.Prelude.{◌≡◌, IsTrue, Some};
ghost use Rattle.lls_base.specs.Shelf.{known_rest};
ghost use Rattle.lls_lrat.specs.Feeding.{begun};
ghost use Rattle.lls_cli.specs.Fed.{FedRest, IsFed};
ghost use Rattle.lls_outside.specs.Moment.{files_of, shelf_at};
ghost use Rattle.lls_cli.specs.Steps.{Reads};

use crate::fault::{Fault, OutsideFault};
use crate::input::PROOF_LIMIT;
use lls_base::{Failed, Name, OpenFault, Shelf};
use lls_cnf::Formula;
use lls_lrat::{CheckError, Feed};
use std::alloc::Global;

// How many bytes of a proof are read at once, at most.
const PIECE_BYTES: usize = 65_536;

/// The check of a formula's proof, fed with all bytes of a file.
pub fn feed_file<'f, S: Shelf>(
    alloc: Global,
    shelf: &mut S,
    name: &Name,
    formula: &'f Formula,
) -> Result<Feed<'f>, Fault>
    ensures { Reads (IsFed formula.now (files_of S.Shelf shelf.old) name.now) result (shelf_at S.Shelf shelf.old) (shelf_at S.Shelf shelf.new) }
{
    match shelf.open_input(name.text()) {
        Ok(()) => {}
        Err(OpenFault::Absent) => return Err(Fault::Outside(OutsideFault::NoFile)),
        Err(OpenFault::Failed) => return Err(Fault::Outside(OutsideFault::OpenFailed)),
    }
    let mut feed = Feed::new(alloc, formula)?;
    feed_rest(shelf, &mut feed)?;
    Ok(feed)
}

// Feeds all that is left of the current input, unless it is more than a proof may have. It reads to the end behind the empty clause
// and behind a fault too, so that a read that fails there isn't missed.
fn feed_rest<S: Shelf>(shelf: &mut S, feed: &mut Feed) -> Result<(), Fault>
    requires input { IsTrue (S.has_input shelf.old) }
    requires fresh { feed.old.feeding ≡ Some (begun feed.old.formula) }
    ensures formula { feed.new.formula ≡ feed.old.formula }
    ensures fed { Reads (FedRest (known_rest (S.told shelf.old)) feed.new) result (shelf_at S.Shelf shelf.old) (shelf_at S.Shelf shelf.new) }
{
    let mut piece = [0; PIECE_BYTES];
    let mut taken = 0;
    loop {
        let count = match shelf.read(&mut piece) {
            Ok(count) => count,
            Err(Failed) => return Err(Fault::Outside(OutsideFault::ReadFailed)),
        };
        if count == 0 {
            return Ok(());
        }
        if count as u64 > PROOF_LIMIT - taken {
            return Err(Fault::TooLong(PROOF_LIMIT));
        }
        taken += count as u64;
        if feed.feed(&piece[..count]) == Err(CheckError::Memory) {
            return Err(Fault::Memory);
        }
    }
}
