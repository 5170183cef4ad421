//! Rule books: which pairs of operations of one thread keep their order.
#![tactic(auto)]

mod book;
mod dependence;
mod entry;
mod reading;
mod rule_book;
mod sc;
mod seen;
mod table;
mod weak;

pub use book::Book;
pub use dependence::Dependence;
pub use entry::Entry;
pub use rule_book::RuleBook;
pub use sc::Sc;
pub use seen::{Access, Seen};
pub use table::Table;
pub use weak::Weak;
