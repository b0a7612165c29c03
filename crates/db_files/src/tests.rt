// The files of a database of no cells. The texts are those of the formats.
use crate::restart;
use database::EngineAnswer;
use dted_cell::CellTrouble;
use std::alloc::Global;
use std::test::Fail;
use terrain_base::{Name, Params, Store, SureStore, TileId, Work};

// The bytes that the store holds under the name.
fn held<S: Store>(store: &mut S, name: &Name) -> Result<Vec<u8>, Fail> {
    let found = store.get(name).ok().ok_or("store")?;
    Ok(found.ok_or("name")?)
}

// Whether a database of no cells was made anew.
fn is_restarted(alloc: Global, store: &mut SureStore, params: &Params, work: &mut Work) -> bool {
    match restart(alloc, store, &[], params, work) {
        Ok(()) => true,
        Err(EngineAnswer::Trouble(CellTrouble::Lost { .. })) => false,
        Err(_) => false,
    }
}

#[test]
fn a_rebuilding_of_no_cells_leaves_both_tiles_of_level_0(rt: HostRuntime) -> Result<(), Fail> {
    let mut store = SureStore::new(rt.alloc());
    let mut work = Work::new();
    let params = Params::of(9, 0).ok_or("params")?;
    let other = TileId::of(9, 0, 0).ok_or("tile")?;
    store
        .put(&Name::terrain(other), b"other")
        .ok()
        .ok_or("memory")?;
    assert!(rt; is_restarted(rt.alloc(), &mut store, &params, &mut work));
    let manifest = b"terrain-db 3\ncap 9\nfill 0\nstate closed\ncells 0\n";
    assert_eq!(rt;
        held(&mut store, &Name::manifest())?.as_slice(),
        manifest.as_slice()
    );
    let east = TileId::of(0, 1, 0).ok_or("tile")?;
    let note = b"bound 0 tolerance 8192 vertices 9 triangles 12 horizon none\n";
    assert_eq!(rt;
        held(&mut store, &Name::note(east))?.as_slice(),
        note.as_slice()
    );
    assert_eq!(rt; store.names().ok().ok_or("store")?.len(), 6);
    assert_eq!(rt; work.tiles(), 2);
    Ok(())
}
