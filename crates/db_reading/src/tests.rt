// What the files of a store read as. The texts are those of the manifest's grammar.
use crate::read_database;
use database::EngineAnswer;
use db_manifest::ManifestState;
use dted_cell::CellTrouble;
use std::alloc::Global;
use std::test::Fail;
use terrain_base::{CellKey, CellLevel, Name, Params, Square, Store, SureStore};

// What a store answers that holds this manifest alone.
fn answer_to(alloc: Global, manifest: &[u8]) -> Result<Option<EngineAnswer>, Fail> {
    let mut store = SureStore::new(alloc);
    store.put(&Name::manifest(), manifest).ok().ok_or("memory")?;
    Ok(read_database(alloc, &mut store).err())
}

#[test]
fn a_database_of_no_cells_is_read(rt: HostRuntime) -> Result<(), Fail> {
    let mut store = SureStore::new(rt.alloc());
    let text = b"terrain-db 3\ncap 9\nfill 0\nstate rebuild\ncells 0\n";
    store.put(&Name::manifest(), text).ok().ok_or("memory")?;
    let reading = read_database(rt.alloc(), &mut store).ok().ok_or("reading")?;
    assert_eq!(rt; Some(reading.params), Params::of(9, 0));
    assert_eq!(rt; reading.mark, ManifestState::Rebuild);
    assert_eq!(rt; reading.rows.len(), 0);
    Ok(())
}

#[test]
fn a_staged_cell_that_is_lost_is_missed_under_the_stage(rt: HostRuntime) -> Result<(), Fail> {
    let square = Square::of(180, 90).ok_or("square")?;
    let key = CellKey {
        square,
        level: CellLevel::Zero,
    };
    for (text, answer) in [
        (
            b"terrain-db 3\ncap 9\nfill 0\nstate put n00e000 0\ncells 1\nn00e000 0\n".as_slice(),
            EngineAnswer::Trouble(CellTrouble::Lost {
                name: Name::stage(),
            }),
        ),
        (
            b"terrain-db 3\ncap 9\nfill 0\nstate closed\ncells 1\nn00e000 0\n".as_slice(),
            EngineAnswer::Trouble(CellTrouble::Lost {
                name: Name::cell(key),
            }),
        ),
        (
            b"terrain-db 2\ncap 9\n".as_slice(),
            EngineAnswer::OldVersion { version: 2 },
        ),
        (
            b"terrain-db 3\ncap 15\n".as_slice(),
            EngineAnswer::NotADatabase { line: 2 },
        ),
    ] {
        assert_eq!(rt; answer_to(rt.alloc(), text)?, Some(answer));
    }
    Ok(())
}
