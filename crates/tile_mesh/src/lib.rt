//! The mesh of a tile: strips along its edges round the leaves of a quadtree.
#![tactic(auto)]

mod build;
mod builder;
mod inner;
mod kept;
pub mod laws;
mod leaves;
mod mesh;
mod point;
mod side;
mod strips;
mod vertices;

pub use build::mesh_of;
pub use mesh::TileMesh;
pub use point::MeshPoint;

#[cfg(test)]
mod tests;
