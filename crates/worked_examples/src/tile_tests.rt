//! What `audit` prints of tiles, and `convert` of rasters.
use crate::playing::{end_of, play_file};
use crate::samples::{flat_tile, four_corners};
use std::test::Fail as Stopped;
use terrain_base::{SureLibrary, SureSink, SureStore};
use terrain_top::Status;

#[test]
fn tiles_are_sized_or_refused(rt: HostRuntime) -> Result<(), Stopped> {
    let alloc = rt.alloc();
    let flat = flat_tile(alloc)?;
    assert_eq!(rt; flat.len(), 254);
    let mut extended = flat.to_vec(alloc)?;
    extended.extend_from_slice(&[1, 2, 0, 0, 0, 0, 0])?;
    let mut cut = flat.to_vec(alloc)?;
    cut.extend_from_slice(&[1, 2, 0, 0, 0, 0])?;
    let zeros = vec![in alloc; 0u8; 87]?;
    let table: [(&[u8], Status, &str); 5] = [
        (
            &flat,
            Status::Done,
            "vertices 9 triangles 12 extensions 0\ngood\n",
        ),
        (
            &extended,
            Status::Done,
            "vertices 9 triangles 12 extensions 1\ngood\n",
        ),
        (&cut, Status::Refused, "refused M5 extension at 254\n"),
        (
            &[0x1F, 0x8B, 8, 0],
            Status::Refused,
            "refused M6 compressed\n",
        ),
        (
            &zeros,
            Status::Refused,
            "refused M1 truncated at 0 need 88\n",
        ),
    ];
    for (bytes, status, text) in table {
        play_file(
            &rt,
            alloc,
            "0.terrain",
            bytes,
            ("audit 0.terrain", status, text),
        )?;
    }
    Ok(())
}

#[test]
fn a_large_tile_is_found(rt: HostRuntime) -> Result<(), Stopped> {
    let alloc = rt.alloc();
    let mut large = vec![in alloc; 0u8; 88]?;
    large.extend_from_slice(&65537u32.to_le_bytes())?;
    large.resize(393_336, 0)?;
    let text = "vertices 65537 triangles 0 extensions 0\nfound too-large 65537\n";
    play_file(
        &rt,
        alloc,
        "0.terrain",
        &large,
        ("audit 0.terrain", Status::Found, text),
    )
}

#[test]
fn overlap_and_hole(rt: HostRuntime) -> Result<(), Stopped> {
    let alloc = rt.alloc();
    let around = [0, 0, 65534, 0];
    let crosswise = [0, 65534, 65533, 65534];
    let gap = "vertices 4 triangles 2 extensions 0\nfound slab-gap 0 32767 place 0\n";
    let good = "vertices 4 triangles 2 extensions 0\ngood\n";
    let clockwise = "vertices 4 triangles 2 extensions 0\nfound not-counter-clockwise triangle 0\n";
    let table = [
        (around, [0, 0, 0, 3, 2, 1], Status::Found, gap),
        (around, [0, 0, 0, 3, 1, 0], Status::Done, good),
        (crosswise, [0, 0, 0, 3, 2, 0], Status::Found, clockwise),
    ];
    for (v, corners, status, text) in &table {
        let bytes = four_corners(alloc, v, corners)?;
        play_file(
            &rt,
            alloc,
            "0.terrain",
            &bytes,
            ("audit 0.terrain", *status, text),
        )?;
    }
    Ok(())
}

#[test]
fn rasters_that_are_no_hgt_are_refused(rt: HostRuntime) -> Result<(), Stopped> {
    let alloc = rt.alloc();
    let name = "N46E007.hgt";
    let short = vec![in alloc; 0u8; 100]?;
    let long = vec![in alloc; 0u8; 33_554_433]?;
    let mut low = vec![in alloc; 0u8; 7216]?;
    low.extend_from_slice(&[0xC1, 0x7F])?;
    low.resize(2_884_802, 0)?;
    let table: [(&str, &[u8], &str, &str); 5] = [
        (
            "x.hgt",
            &short,
            "convert x.hgt",
            "refused F4 bad hgt name x.hgt\n",
        ),
        (
            "x.hgt",
            &short,
            "convert N46E007.hgt",
            "refused F1 absent N46E007.hgt\n",
        ),
        (
            name,
            &long,
            "convert N46E007.hgt",
            "refused F2 too long N46E007.hgt limit 33554432\n",
        ),
        (
            name,
            &short,
            "convert N46E007.hgt",
            "refused H1 bad length 100\n",
        ),
        (
            name,
            &low,
            "convert N46E007.hgt",
            "refused H2 height line 3 place 5 value -16001\n",
        ),
    ];
    for (name, bytes, line, text) in table {
        play_file(&rt, alloc, name, bytes, (line, Status::Refused, text))?;
    }
    Ok(())
}

#[test]
fn a_raster_of_zeros_becomes_a_cell(rt: HostRuntime) -> Result<(), Stopped> {
    let alloc = rt.alloc();
    let zeros = vec![in alloc; 0u8; 2_884_802]?;
    let mut files = SureLibrary::new(alloc);
    files.hold("N46E007.hgt", &zeros)?;
    files.hold("in/n60e007.HGT", &zeros)?;
    let mut store = SureStore::new(alloc);
    for (line, length) in [
        ("convert N46E007.hgt", 2_902_642),
        ("convert in/n60e007.HGT", 1_454_242),
    ] {
        let mut out = SureSink::new(alloc);
        let ended = end_of(alloc, line, &mut store, &mut files, &mut out)?;
        assert_eq!(rt; ended, Status::Done);
        assert_eq!(rt; out.taken().len(), length);
    }
    Ok(())
}
