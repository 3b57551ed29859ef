// The services for programs in other languages: numbers pass as themselves, texts and buffers as a pointer and a length.
#![tactic(auto)]

pub mod lamp; // lamp.rt: whether there is a row
pub mod list; // list.rt: listing the rows
pub mod names; // names.rt: the names of a book's nodes
pub mod read_book; // read_book.rt: reading a book
pub mod read_query; // read_query.rt: reading a query
pub mod read_request; // read_request.rt: reading a request
pub mod read_rules; // read_rules.rt: reading rules
pub mod renamed; // renamed.rt: renaming a stored book
pub mod tidying; // tidying.rt: the tidy book
pub mod write_query; // write_query.rt: writing a query
