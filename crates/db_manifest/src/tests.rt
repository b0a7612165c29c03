//! Worked manifests. The refused lines are those that another program, made apart from this one, gives.
use super::*;
use std::alloc::Global;
use std::test::Fail;
use terrain_base::{CellKey, CellLevel, Params, Square};

// The line for which the bytes are refused, or 0 where they are read.
fn refused_line(alloc: Global, bytes: &[u8]) -> u32 {
    match Manifest::read(alloc, bytes) {
        Err(ManifestRefusal::NotADatabase { line }) => line,
        _ => 0,
    }
}

#[test]
fn the_manifest_of_no_cells_has_47_bytes(rt: HostRuntime) -> Result<(), Fail> {
    let params = Params::of(9, 0).ok_or("params")?;
    let manifest = Manifest::of(params, ManifestState::Closed, Vec::new(rt.alloc()));
    let text = manifest.write(rt.alloc())?;
    let stated = b"terrain-db 3\ncap 9\nfill 0\nstate closed\ncells 0\n";
    assert_eq!(rt; text.as_slice(), stated.as_slice());
    assert_eq!(rt; text.len(), 47);
    Ok(())
}

#[test]
fn rows_are_read_and_written(rt: HostRuntime) -> Result<(), Fail> {
    let text = b"terrain-db 3\ncap 14\nfill -16000\nstate closed\ncells 2\ns90w180 2\nn46e007 0\n";
    let manifest = Manifest::read(rt.alloc(), text)?;
    assert_eq!(rt; manifest.version(), 3);
    assert_eq!(rt; Some(manifest.params()), Params::of(14, -16000));
    assert_eq!(rt;
        manifest.rows().first().map(|key| key.square),
        Square::of(0, 0)
    );
    assert_eq!(rt;
        manifest.rows().get(1).map(|key| key.level),
        Some(CellLevel::Zero)
    );
    assert_eq!(rt; manifest.write(rt.alloc())?.as_slice(), text.as_slice());
    Ok(())
}

#[test]
fn each_state_is_read_and_written(rt: HostRuntime) -> Result<(), Fail> {
    let square = Square::of(180, 90).ok_or("square")?;
    let key = CellKey {
        square,
        level: CellLevel::Zero,
    };
    for (state, lines) in [
        (ManifestState::Closed, "closed\ncells 1\nn00e000 0\n"),
        (
            ManifestState::Put { key },
            "put n00e000 0\ncells 1\nn00e000 0\n",
        ),
        (
            ManifestState::Drop { key },
            "drop n00e000 0\ncells 1\nn00e000 2\n",
        ),
        (
            ManifestState::Rebuild,
            "rebuild\ncells 2\nn00e000 2\nn00e000 0\n",
        ),
    ] {
        let text = format!(in rt.alloc(); "terrain-db 3\ncap 9\nfill 0\nstate {lines}")?;
        let manifest = Manifest::read(rt.alloc(), text.as_bytes())?;
        assert_eq!(rt; manifest.state(), state);
        assert_eq!(rt; manifest.write(rt.alloc())?.as_slice(), text.as_bytes());
    }
    Ok(())
}

#[test]
fn each_line_before_the_state_can_be_the_first_bad_one(rt: HostRuntime) {
    for (line, text) in [
        (1, ""),
        (1, "terrain-db 3"),
        (1, "terrain-db 2\ncap 9\nfill 0\nstate closed\ncells 0\n"),
        (1, "terrain-db 3\r\ncap 9\n"),
        (2, "terrain-db 3\ncap 15\nfill x\n"),
        (2, "terrain-db 3\ncap 09\nfill 0\n"),
        (2, "terrain-db 3\ncap +9\nfill 0\n"),
        (3, "terrain-db 3\ncap 9\nfill -0\nstate closed\ncells 0\n"),
        (3, "terrain-db 3\ncap 9\nfill 16001\n"),
        (3, "terrain-db 3\ncap 9\nfill -16001\n"),
        (3, "terrain-db 3\ncap 9\nfill +1\n"),
    ] {
        assert_eq!(rt; refused_line(rt.alloc(), text.as_bytes()), line, "{text}");
    }
}

#[test]
fn each_line_from_the_state_on_can_be_the_first_bad_one(rt: HostRuntime) -> Result<(), Fail> {
    for (line, lines) in [
        (4, ""),
        (4, "closed"),
        (4, "open\ncells 0\n"),
        (4, "put n00e000\ncells 0\n"),
        (4, "put n00e000 3\ncells 0\n"),
        (4, "closed \ncells 0\n"),
        (5, "closed\ncells 4097\n"),
        (5, "closed\ncells 0"),
        (6, "closed\ncells 1\n"),
        (6, "closed\ncells 0\nx"),
        (6, "closed\ncells 1\nn00e000 3\n"),
        (6, "closed\ncells 1\nn00e000\n"),
        (7, "closed\ncells 2\nn89e179 1\n"),
        (7, "closed\ncells 2\nn00e001 1\nn00e000 1\n"),
        (7, "closed\ncells 2\nn00e000 0\nn00e000 1\n"),
        (7, "closed\ncells 2\nn00e000 1\nn00e000 1\n"),
        (7, "closed\ncells 2\nn00e000 1\nn00e001 1"),
        (7, "closed\ncells 1\nn00e000 1\n\n"),
        (7, "closed\ncells 1\nn00e000 1\nn00e001 1\n"),
    ] {
        let text = format!(in rt.alloc(); "terrain-db 3\ncap 9\nfill 0\nstate {lines}")?;
        assert_eq!(rt; refused_line(rt.alloc(), text.as_bytes()), line, "{lines}");
    }
    Ok(())
}

#[test]
fn a_put_key_is_among_the_rows_and_a_dropped_one_is_not(rt: HostRuntime) -> Result<(), Fail> {
    for (line, lines) in [
        (4, "put n00e000 0\ncells 1\nn00e000 1\n"),
        (4, "put n00e000 0\ncells 0\n"),
        (5, "put n00e000 0\ncells 01\nn00e000 1\n"),
        (7, "put n00e000 0\ncells 1\nn00e000 1\nx"),
        (4, "drop n00e000 0\ncells 1\nn00e000 0\n"),
        (7, "drop n00e000 0\ncells 2\nn00e000 0\n"),
    ] {
        let text = format!(in rt.alloc(); "terrain-db 3\ncap 9\nfill 0\nstate {lines}")?;
        assert_eq!(rt; refused_line(rt.alloc(), text.as_bytes()), line, "{lines}");
    }
    Ok(())
}

#[test]
fn bytes_that_are_no_text_refuse_their_line(rt: HostRuntime) {
    let cap = b"terrain-db 3\ncap \xFF\n".as_slice();
    let row = b"terrain-db 3\ncap 9\nfill 0\nstate closed\ncells 1\n\xFF00e000 0\n".as_slice();
    assert_eq!(rt; refused_line(rt.alloc(), cap), 2);
    assert_eq!(rt; refused_line(rt.alloc(), row), 6);
}
