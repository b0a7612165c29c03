//! Tiles of quantized-mesh-1.0: bytes and meshes of codes, both ways.
#![tactic(auto)]

mod array;
mod building;
mod codes;
mod edge_indexes;
mod encoding;
mod extension;
mod extensions;
mod header;
mod index;
pub mod laws;
mod layout;
mod mesh;
mod number;
mod part;
mod refusal;
#[cfg(test)]
mod tests;
mod tile;
mod triangles;
mod vertex_codes;
mod view;

pub use codes::Codes;
pub use edge_indexes::EdgeIndexes;
pub use encoding::encode;
pub use extensions::{Extension, Extensions};
pub use header::Header;
pub use mesh::CodeMesh;
pub use refusal::{Array, TileRefusal};
pub use triangles::Triangles;
pub use vertex_codes::VertexCodes;
pub use view::TileView;
