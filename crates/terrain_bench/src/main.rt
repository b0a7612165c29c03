//! The work that the benchmarks time. Its words are a kind of work and how often it is done; it prints the kind, the
//! number, and a sum over all results. The kind `layer` prints the layer text of so many cells instead, and the kind
//! `sample` how many triangles the meshes of so many grids have, and hashes of their vertices, triangles and edges, and
//! then how a grid over so many scattered cells asks for their posts.
#![tactic(auto)]

mod boxes;
mod grid_sample;
mod grids;
mod layers;
mod meshes;
mod scattered;
mod tiles;

use meshes::Kind;
use std::alloc::Global;
use std::env;
use std::io::{self, Write};
use terrain_base::NoMemory;

/// What is printed for a grid over so many scattered cells.
fn scattered_line(alloc: Global, count: u32) -> Result<Vec<u8>, NoMemory> {
    let Some(said) = scattered::of_cells(alloc, count)? else {
        return Ok(Vec::new(alloc));
    };
    let (cells, asked, turns) = (said.cells, said.asked, said.turns);
    let line = format!(in alloc; "scattered cells {cells} asked {asked} turns {turns}\n")?;
    Ok(line.into_bytes())
}

/// What is printed for the meshes of so many grids.
fn sample(alloc: Global, count: u32) -> Result<Vec<u8>, NoMemory> {
    let said = grid_sample::of_grids(alloc, count)?;
    let (points, triangles, edges) = (said.points, said.triangles, said.edges);
    let line = format!(in alloc; "{} triangles {points} {triangles} {edges}\n", said.count)?;
    let mut text = line.into_bytes();
    text.extend_from_slice(&scattered_line(alloc, count)?)?;
    Ok(text)
}

/// What is printed for so many results of this kind of work.
fn report(alloc: Global, kind: &str, count: u32) -> Result<Vec<u8>, NoMemory> {
    let sum = match kind {
        "layer" => return layers::text(alloc, count),
        "sample" => return sample(alloc, count),
        "boxes" => boxes::sum(count),
        "grids" => grids::sum(alloc, count)?,
        "tiles" => tiles::sum(alloc, count)?,
        "dense" => meshes::sum(alloc, Kind::Dense, count)?,
        "hilly" => meshes::sum(alloc, Kind::Hilly, count)?,
        _ => 0,
    };
    let line = format!(in alloc; "{kind} {count} {sum}\n")?;
    Ok(line.into_bytes())
}

fn main(rt: HostRuntime) -> io::Result<()> {
    let mut words = env::args(&rt)?.skip(1);
    let kind = words.next().unwrap_or(String::new(rt.alloc()));
    let count = words
        .next()
        .and_then(|word| word.parse::<u32>().ok())
        .unwrap_or(1);
    match report(rt.alloc(), kind.as_str(), count) {
        Ok(text) => io::writer(&rt).write_all(&text),
        Err(NoMemory) => println!(rt; "no memory"),
    }
}
