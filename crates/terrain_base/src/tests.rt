ghost use Rattle.std.specs.Prelude.{◌≡◌, slice_index};

use super::*;
use std::io::{self, Read};

// Looks for the first byte of a file.
struct FirstByte;

impl Reading for FirstByte {
    type Found = u8;

    ghost tells = { λ _ bytes first. slice_index bytes 0 ≡ first };

    fn find<R: Read>(&self, reader: &mut R) -> io::Result<Option<u8>> {
        let mut first = [0];
        reader.read_exact(&mut first)?;
        Ok(Some(first[0]))
    }
}

#[test]
fn names_of_all_kinds_are_read_back(rt: HostRuntime) {
    let square = Square::of(188, 137).expect(&rt, "a square");
    let key = CellKey {
        square,
        level: CellLevel::Two,
    };
    let tile = TileId::of(14, 32767, 16383).expect(&rt, "a tile");
    for (name, text) in [
        (Name::manifest(), "manifest.txt"),
        (Name::layer(), "layer.json"),
        (Name::stage(), "stage.dt"),
        (Name::cell(key), "cells/n47e008.2.dt"),
        (Name::old_cell(square), "cells/n47e008.dt"),
        (Name::terrain(tile), "14/32767/16383.terrain"),
        (Name::note(tile), "14/32767/16383.txt"),
    ] {
        assert_eq!(rt; name.bytes(), text.as_bytes());
        assert!(rt; Name::read(text.as_bytes()) == Some(name), "{text}");
    }
}

#[test]
fn other_texts_are_no_names(rt: HostRuntime) {
    for text in [
        "",
        "manifest",
        "manifest.txt ",
        "Stage.dt",
        "n00e000.dt",
        "cells/n00e000",
        "cells/n0e000.dt",
        "cells/n90e000.dt",
        "cells/s00e000.dt",
        "cells/s91e000.dt",
        "cells/n00e180.dt",
        "cells/n00w000.dt",
        "cells/n00w181.dt",
        "cells/n00e000.dt0",
        "cells/n00e000.3.dt",
        "cells/n00e000.00.dt",
        "cells/n00e000..dt",
        "cells/n00e000.0",
        "cells/n00e000.0.txt",
        "manifest.0.dt",
        "n00e000.0.dt",
        "15/0/0.terrain",
        "0/2/0.terrain",
        "0/0/1.terrain",
        "00/0/0.terrain",
        "0/+1/0.terrain",
        "0/0/0/0.terrain",
        "0/0.terrain",
        "0/0/0.txt ",
        "0/0/0.json",
    ] {
        assert!(rt; Name::read(text.as_bytes()).is_none(), "{text}");
    }
}

#[test]
fn a_store_in_memory_keeps_files(rt: HostRuntime) {
    let mut store = SureStore::new(rt.alloc());
    store.put(&Name::stage(), b"old").expect(&rt, "memory");
    store
        .put(&Name::manifest(), b"manifest")
        .expect(&rt, "memory");
    store.put(&Name::stage(), b"new").expect(&rt, "memory");
    let found = store.get(&Name::stage()).expect(&rt, "memory");
    assert!(rt; matches!(&found, Some(bytes) if bytes.as_slice() == b"new".as_slice()));
    store.delete(&Name::stage()).expect(&rt, "memory");
    assert!(rt; store.get(&Name::stage()).expect(&rt, "memory").is_none());
    assert!(rt; store.log().len() == 4);
}

#[test]
fn a_reading_finds_what_it_looks_for_or_all_is_read(rt: HostRuntime) {
    let mut library = SureLibrary::new(rt.alloc());
    library.hold("two", b"xy").expect(&rt, "memory");
    library.hold("empty", b"").expect(&rt, "memory");
    let found = library.fetch_by("two", 2, &FirstByte);
    assert!(rt; matches!(found, Ok(ReadBy::Found(b'x'))));
    let whole = library.fetch_by("empty", 2, &FirstByte);
    assert!(rt; matches!(whole, Ok(ReadBy::Whole(Fetched::Bytes(_)))));
    let longer = library.fetch_by("two", 1, &FirstByte);
    assert!(rt; matches!(longer, Ok(ReadBy::Whole(Fetched::TooLong))));
    let mut store = SureStore::new(rt.alloc());
    store.put(&Name::stage(), b"xy").expect(&rt, "memory");
    store.put(&Name::layer(), b"").expect(&rt, "memory");
    let found = store.get_by(&Name::stage(), &FirstByte);
    assert!(rt; matches!(found, Ok(Some(ReadBy::Found(b'x')))));
    let whole = store.get_by(&Name::layer(), &FirstByte);
    assert!(rt; matches!(whole, Ok(Some(ReadBy::Whole(_)))));
    assert!(rt; matches!(store.get_by(&Name::manifest(), &FirstByte), Ok(None)));
}

#[test]
fn names_are_told_in_the_order_of_their_bytes(rt: HostRuntime) {
    let mut store = SureStore::new(rt.alloc());
    for text in [
        "stage.dt",
        "2/0/0.terrain",
        "manifest.txt",
        "10/0/0.terrain",
        "2/0/0.txt",
    ] {
        let name = Name::read(text.as_bytes()).expect(&rt, "a name");
        store.put(&name, b"").expect(&rt, "memory");
    }
    let names = store.names().expect(&rt, "memory");
    let texts = [
        "10/0/0.terrain",
        "2/0/0.terrain",
        "2/0/0.txt",
        "manifest.txt",
        "stage.dt",
    ];
    assert_eq!(rt; names.len(), texts.len());
    for (name, text) in names.iter().zip(texts) {
        assert_eq!(rt; name.bytes(), text.as_bytes());
    }
}

#[test]
fn a_store_fails_at_the_calls_of_its_list(rt: HostRuntime) {
    let fails = [
        (1, false),
        (2, true),
        (4, false),
        (6, false),
        (8, false),
        (9, true),
    ]
    .map(|(call, applied)| Fail { call, applied });
    let mut store = MemStore::new(rt.alloc(), &fails).expect(&rt, "memory");
    assert!(rt; store.put(&Name::stage(), b"old").is_ok());
    assert!(rt; store.put(&Name::stage(), b"new") == Err(DeviceFault::Failed));
    assert!(rt; store.put(&Name::layer(), b"layer") == Err(DeviceFault::Failed));
    let staged = store.get(&Name::stage()).expect(&rt, "no fault");
    assert!(rt; matches!(&staged, Some(bytes) if bytes.as_slice() == b"old".as_slice()));
    assert!(rt; store.get(&Name::stage()).is_err());
    let layer = store.get(&Name::layer()).expect(&rt, "no fault");
    assert!(rt; matches!(&layer, Some(bytes) if bytes.as_slice() == b"layer".as_slice()));
    assert!(rt; store.names().is_err());
    let names = store.names().expect(&rt, "no fault");
    assert!(rt; names.as_slice() == [Name::layer(), Name::stage()].as_slice());
    assert!(rt; store.delete(&Name::stage()) == Err(DeviceFault::Failed));
    assert!(rt; store.delete(&Name::layer()) == Err(DeviceFault::Failed));
    let names = store.names().expect(&rt, "no fault");
    assert!(rt; names.as_slice() == [Name::stage()].as_slice());
    assert!(rt; store.delete(&Name::stage()).is_ok());
    let log = [
        Change::Put(Name::stage()),
        Change::Put(Name::stage()),
        Change::Put(Name::layer()),
        Change::Delete(Name::stage()),
        Change::Delete(Name::layer()),
        Change::Delete(Name::stage()),
    ];
    assert!(rt; store.log() == log.as_slice());
}

#[test]
fn keys_in_rows_are_read_back(rt: HostRuntime) {
    for (text, square, level) in [
        ("n47e008 2", (188, 137), CellLevel::Two),
        ("s01w180 0", (0, 89), CellLevel::Zero),
        ("s90e179 1", (359, 0), CellLevel::One),
    ] {
        let square = Square::of(square.0, square.1).expect(&rt, "a square");
        let key = CellKey { square, level };
        assert_eq!(rt; key.text().as_slice(), text.as_bytes());
        assert!(rt; CellKey::read(text.as_bytes()) == Some(key), "{text}");
    }
    for text in ["n47e008", "n47e008 3", "n47e008.2", "n47e008 02", "n47e8 2"] {
        assert!(rt; CellKey::read(text.as_bytes()).is_none(), "{text}");
    }
}
