//! The adapters over a real folder, real files and standard output.
use crate::{FolderLibrary, FolderStore, StdSink};
use std::fs;
use std::test::Fail as Stopped;
use terrain_base::{DeviceFault, Fetched, Library, Name, Sink, Store, TileId};

#[test]
fn a_store_in_a_folder_keeps_files_by_name(rt: HostRuntime) -> Result<(), Stopped> {
    let mut store = FolderStore::new(&rt, "folder_store_test");
    let tile = TileId::of(9, 512, 256).expect(&rt, "a tile");
    let terrain = Name::terrain(tile);
    assert_eq!(rt; store.names().expect(&rt, "no folder").len(), 0);
    assert!(rt; store.get(&terrain).expect(&rt, "absent").is_none());
    store.delete(&terrain).expect(&rt, "of an absent name");
    store.put(&Name::manifest(), b"old").expect(&rt, "a put");
    store
        .put(&terrain, b"tile")
        .expect(&rt, "a put below folders");
    store
        .put(&Name::manifest(), b"new")
        .expect(&rt, "a put in place of the old");
    fs::write(&rt, "folder_store_test/notes.txt", "no name of a database")?;
    fs::write(
        &rt,
        "folder_store_test/9/512/256.terrain.new",
        "half-written",
    )?;
    let names = store.names().expect(&rt, "names");
    assert_eq!(rt; names.len(), 2);
    assert_eq!(rt; names[0].bytes(), b"9/512/256.terrain".as_slice());
    assert_eq!(rt; names[1].bytes(), b"manifest.txt".as_slice());
    let held = store.get(&Name::manifest()).expect(&rt, "a get");
    assert_eq!(rt; held.expect(&rt, "held").as_slice(), b"new".as_slice());
    store.delete(&terrain).expect(&rt, "a delete");
    assert!(rt; store.get(&terrain).expect(&rt, "deleted").is_none());
    assert!(rt; !fs::exists(&rt, "folder_store_test/9/512/256.terrain.new")?);
    fs::create_dir_all(&rt, "folder_store_test/layer.json")?;
    assert!(rt; matches!(store.get(&Name::layer()), Err(DeviceFault::Failed)));
    assert!(rt; matches!(store.put(&Name::layer(), b"x"), Err(DeviceFault::Failed)));
    assert_eq!(rt; store.names().expect(&rt, "names").len(), 1);
    Ok(())
}

#[test]
fn a_library_fetches_files_within_their_limit(rt: HostRuntime) -> Result<(), Stopped> {
    fs::write(&rt, "fetched.txt", "four")?;
    fs::create_dir_all(&rt, "fetched_folder")?;
    let mut library = FolderLibrary::new(&rt);
    match library.fetch("fetched.txt", 4).expect(&rt, "a file") {
        Fetched::Bytes(bytes) => assert_eq!(rt; bytes.as_slice(), b"four".as_slice()),
        _ => assert!(rt; false),
    }
    assert!(rt; matches!(library.fetch("fetched.txt", 3), Ok(Fetched::TooLong)));
    assert!(rt; matches!(library.fetch("not_there.txt", 3), Ok(Fetched::Absent)));
    assert!(rt; matches!(library.fetch("fetched.txt/below", 3), Ok(Fetched::Absent)));
    assert!(rt; matches!(library.fetch("fetched_folder", 3), Err(DeviceFault::Failed)));
    Ok(())
}

#[test]
fn standard_output_takes_bytes(rt: HostRuntime) -> Result<(), Stopped> {
    let mut sink = StdSink::new(&rt);
    assert!(rt; sink.put(b"taken\n").is_ok());
    Ok(())
}
