//! The worked examples of the program: commands go in, and what they print and how they end is compared.
#![tactic(auto)]

#[cfg(test)]
mod cell_tests;
#[cfg(test)]
mod database_tests;
#[cfg(test)]
mod fault_tests;
#[cfg(test)]
mod files;
#[cfg(test)]
mod migrate_tests;
#[cfg(test)]
mod playing;
#[cfg(test)]
mod realistic_tests;
#[cfg(test)]
mod samples;
#[cfg(test)]
mod state_tests;
#[cfg(test)]
mod surface_tests;
#[cfg(test)]
mod tile_tests;
#[cfg(test)]
mod watched_tests;
#[cfg(test)]
mod word_tests;
