//! Worked manifests of versions 1 and 2. The refused lines are those that another program, made apart from this one,
//! gives.
use super::*;
use manifest_lines::ManifestRefusal;
use std::alloc::Global;
use std::test::Fail;
use terrain_base::{CellLevel, Params, Square};

// The line for which the bytes are refused, or 0 where they are read.
fn refused_line(alloc: Global, bytes: &[u8]) -> u32 {
    match OldManifest::read(alloc, bytes) {
        Err(ManifestRefusal::NotADatabase { line }) => line,
        _ => 0,
    }
}

#[test]
fn rows_of_version_1_are_squares(rt: HostRuntime) -> Result<(), Fail> {
    let text = b"terrain-db 1\ncap 9\nfill -5\nstate put n00e000\ncells 2\ns90w180\nn00e000\n";
    let manifest = OldManifest::read(rt.alloc(), text)?;
    let square = Square::of(180, 90).ok_or("square")?;
    let row = OldRow {
        square,
        level: None,
    };
    assert_eq!(rt; Some(manifest.params()), Params::of(9, -5));
    assert_eq!(rt; manifest.staged(), Some(row));
    assert_eq!(rt;
        manifest.rows().first().map(|row| row.square),
        Square::of(0, 0)
    );
    assert_eq!(rt; manifest.rows().get(1).copied(), Some(row));
    Ok(())
}

#[test]
fn rows_of_version_2_are_keys(rt: HostRuntime) -> Result<(), Fail> {
    let text = b"terrain-db 2\ncap 12\nfill 0\nstate closed\ncells 2\nn00e000 1\nn00e000 0\n";
    let manifest = OldManifest::read(rt.alloc(), text)?;
    assert_eq!(rt; Some(manifest.params()), Params::of(12, 0));
    assert_eq!(rt; manifest.staged(), None);
    assert_eq!(rt;
        manifest.rows().first().and_then(|row| row.level),
        Some(CellLevel::One)
    );
    assert_eq!(rt;
        manifest.rows().get(1).and_then(|row| row.level),
        Some(CellLevel::Zero)
    );
    Ok(())
}

#[test]
fn a_bad_line_is_refused_by_the_grammar_of_the_first(rt: HostRuntime) {
    for (line, text) in [
        (1, ""),
        (1, "terrain-db 3\ncap 9\nfill 0\nstate closed\ncells 0\n"),
        (2, "terrain-db 1\ncap 15\n"),
        (2, "terrain-db 2\ncap 15\n"),
        (0, "terrain-db 1\ncap 9\nfill 0\nstate rebuild\ncells 0\n"),
        (
            0,
            "terrain-db 2\ncap 9\nfill 0\nstate drop n00e000 1\ncells 0\n",
        ),
    ] {
        assert_eq!(rt; refused_line(rt.alloc(), text.as_bytes()), line, "{text}");
    }
}

#[test]
fn states_and_rows_are_those_of_their_version(rt: HostRuntime) -> Result<(), Fail> {
    for (line, version, lines) in [
        (7, 1, "closed\ncells 2\nn00e001\nn00e000\n"),
        (6, 1, "closed\ncells 1\nn00e000 0\n"),
        (4, 1, "put n00e000 0\ncells 1\nn00e000\n"),
        (4, 1, "put n00e001\ncells 1\nn00e000\n"),
        (4, 1, "drop n00e000\ncells 1\nn00e000\n"),
        (7, 1, "closed\ncells 1\nn00e000\nn"),
        (7, 2, "closed\ncells 2\nn00e000 0\nn00e000 1\n"),
        (6, 2, "closed\ncells 1\nn00e000\n"),
        (4, 2, "put n00e000\ncells 1\nn00e000 0\n"),
        (4, 2, "put n00e000 1\ncells 1\nn00e000 0\n"),
        (4, 2, "drop n00e000 0\ncells 1\nn00e000 0\n"),
        (7, 2, "closed\ncells 1\nn00e000 0\n\n"),
    ] {
        let text = format!(in rt.alloc(); "terrain-db {version}\ncap 9\nfill 0\nstate {lines}")?;
        assert_eq!(rt;
            refused_line(rt.alloc(), text.as_bytes()),
            line,
            "{version} {lines}"
        );
    }
    Ok(())
}
