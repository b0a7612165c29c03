//! A realistic cell: a generated landscape of level 1, over 815 tiles.
use crate::files::sum_of;
use crate::playing::play;
use dted_write::generate;
use std::test::Fail as Stopped;
use terrain_base::{CellLevel, Square, SureLibrary, SureStore};
use terrain_top::Status;

#[test]
fn a_realistic_cell(rt: HostRuntime) -> Result<(), Stopped> {
    let alloc = rt.alloc();
    let square = Square::read(b"n46e007").ok_or("square")?;
    let mut store = SureStore::new(alloc);
    let mut files = SureLibrary::new(alloc);
    files.hold("hills", &generate(alloc, 9, square, CellLevel::One)?)?;
    let tile =
        "tile 12/4266/3106 bytes 10668 vertices 592 triangles 1158 min 706 max 1763 edges 7 8 5 8\n\
         bound 3 tolerance 2 vertices 592 triangles 1158 horizon 257\n";
    let rows = [
        ("init 12 0", Status::Done, "created cap 12 fill 0\n"),
        ("add hills", Status::Done, "added n46e007 tiles 815\n"),
        ("inspect 12 4266 3106", Status::Done, tile),
        ("check", Status::Done, "check good files 1633\n"),
    ];
    play(&rt, alloc, &mut store, &mut files, &rows)?;
    assert_eq!(rt; sum_of(&mut store)?, 0xa59dde91d2852ea1);
    Ok(())
}
