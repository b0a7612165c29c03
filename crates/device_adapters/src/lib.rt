//! The store, the library and the sink over a real folder, real files and standard output: the trusted edge. Each is
//! proved against its trait and counts its faults, but no contract says what a real file or output holds, returns or
//! does.
#![tactic(auto)]

mod fault;
mod folder_library;
mod folder_store;
mod listing;
mod reading;
mod std_sink;
#[cfg(test)]
mod tests;

pub use folder_library::FolderLibrary;
pub use folder_store::FolderStore;
pub use std_sink::StdSink;
