//! What the whole of the program speaks of: squares of one degree, levels of cells, posts and heights,
//! and the outside.
#![tactic(auto)]

mod cell_key;
mod division;
mod fail;
mod fault;
mod grid;
mod indexes;
mod key_text;
pub mod laws;
mod level;
mod library;
mod mem_library;
mod mem_sink;
mod mem_store;
mod name;
mod params;
mod post;
mod read_name;
mod reading;
mod side;
mod sink;
mod square;
mod square_text;
mod store;
mod summary;
mod sure_library;
mod sure_sink;
mod sure_store;
#[cfg(test)]
mod tests;
mod text;
mod tile;
mod work;

pub use cell_key::CellKey;
pub use division::{ceil_div, floor_div, isqrt};
pub use fail::Fail;
pub use fault::{DeviceFault, NoMemory};
pub use grid::{Grid, grid_line, tolerance};
pub use indexes::Indexes;
pub use level::{CellLevel, columns, depth, lat_step, level_number, lon_step, rows};
pub use library::{Fetched, Library};
pub use mem_library::MemLibrary;
pub use mem_sink::MemSink;
pub use mem_store::MemStore;
pub use name::{Key, Name};
pub use params::Params;
pub use post::{Extremes, Post};
pub use reading::{ReadBy, Reading};
pub use side::Side;
pub use sink::Sink;
pub use square::Square;
pub use store::{Change, Store};
pub use summary::Summary;
pub use sure_library::SureLibrary;
pub use sure_sink::SureSink;
pub use sure_store::SureStore;
pub use tile::TileId;
pub use work::Work;
