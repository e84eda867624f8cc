//! Search files: how people pose a question. Sizes, cells and the names that tie cells together.
#![tactic(auto)]

mod cell;
mod history_error;
mod history_fault;
mod list;
mod list_error;
mod list_fault;
mod names;
mod plain;
mod posed;
mod posed_error;
mod posed_fault;
mod print;
mod read;
mod row;
mod shape;
mod word;

pub use cell::{Cell, Cells, Kind};
pub use history_error::HistoryError;
pub use history_fault::HistoryFault;
pub use list::read_list;
pub use list_error::ListError;
pub use list_fault::ListFault;
pub use plain::read_history;
pub use posed::{Names, Posed};
pub use posed_error::PosedError;
pub use posed_fault::PosedFault;
pub use print::print_posed;
pub use read::read_posed;
