//! Words and scripts by examples.
use crate::{Command, DatabaseCommand, Edit, Line, Query, command_in, script_lines};
use std::alloc::{AllocError, Global};
use std::test::Fail as Stopped;
use terrain_base::CellLevel;

fn words(alloc: Global, words: &[&str]) -> Result<Vec<String>, AllocError> {
    let mut all = Vec::new(alloc);
    for word in words {
        all.push(String::from_str(alloc, word)?)?;
    }
    Ok(all)
}

#[test]
fn words_spell_commands(rt: HostRuntime) -> Result<(), Stopped> {
    let alloc = rt.alloc();
    let init = words(alloc, &["db", "init", "9", "-5"])?;
    assert!(rt;
        matches!(command_in(&init), Some(Command::Init { params }) if params.cap == 9 && params.fill == -5)
    );
    let remove = words(alloc, &["db", "remove", "n00e000", "2"])?;
    assert!(rt;
        matches!(command_in(&remove), Some(Command::Database(DatabaseCommand::Change(Edit::Remove { key })))
        if key.level == CellLevel::Two && key.square.lat == 90)
    );
    let inspect = words(alloc, &["db", "inspect", "9", "512", "256"])?;
    assert!(rt;
        matches!(command_in(&inspect), Some(Command::Database(DatabaseCommand::Ask(Query::Inspect { tile })))
        if tile.x == 512)
    );
    let heightmap = words(alloc, &["db", "heightmap", "9", "512", "256"])?;
    assert!(rt;
        matches!(command_in(&heightmap), Some(Command::Database(DatabaseCommand::Ask(Query::Heightmap { tile })))
        if tile.y == 256)
    );
    let check = words(alloc, &["db", "check"])?;
    assert!(rt;
        matches!(
            command_in(&check),
            Some(Command::Database(DatabaseCommand::Check))
        )
    );
    let convert = words(alloc, &["db", "convert", "N46E007.hgt"])?;
    assert!(rt;
        matches!(
            command_in(&convert),
            Some(Command::Convert {
                file: "N46E007.hgt"
            })
        )
    );
    let trial = words(alloc, &["db", "trial", "64", "18446744073709551615"])?;
    assert!(rt;
        matches!(
            command_in(&trial),
            Some(Command::Trial {
                count: 64,
                number: 18446744073709551615
            })
        )
    );
    Ok(())
}

#[test]
fn other_words_spell_none(rt: HostRuntime) -> Result<(), Stopped> {
    let alloc = rt.alloc();
    let table: [&[&str]; 14] = [
        &[],
        &["db"],
        &["db", "init", "15", "0"],
        &["db", "init", "9", "-0"],
        &["db", "init", "09", "0"],
        &["db", "add"],
        &["db", "add", ""],
        &["db", "remove", "n0e0", "0"],
        &["db", "remove", "n00e000", "3"],
        &["db", "inspect", "0", "2", "0"],
        &["db", "trial", "65", "1"],
        &["db", "list", "x"],
        &["db", "check", "x"],
        &["db", "convert", ""],
    ];
    for row in &table {
        let spelled = words(alloc, row)?;
        assert!(rt; command_in(&spelled).is_none());
    }
    Ok(())
}

#[test]
fn scripts_are_cut_into_lines(rt: HostRuntime) -> Result<(), Stopped> {
    let alloc = rt.alloc();
    let lines = script_lines(
        alloc,
        b"add a.dt0\nremove n00e000 0\r\n# a note\n\n\r\nadd  b\nadd\n#\xff\nreplace c",
    )?;
    assert_eq!(rt; lines.len(), 9);
    assert!(rt; matches!(lines[0], Line::Change(Edit::Add { file: "a.dt0" })));
    assert!(rt; matches!(lines[1], Line::Change(Edit::Remove { .. })));
    assert!(rt; matches!(lines[2], Line::Passed));
    assert!(rt; matches!(lines[3], Line::Passed));
    assert!(rt; matches!(lines[4], Line::Passed));
    assert!(rt; matches!(lines[5], Line::Change(Edit::Add { file: " b" })));
    assert!(rt; matches!(lines[6], Line::NoCommand));
    assert!(rt; matches!(lines[7], Line::NoCommand));
    assert!(rt; matches!(lines[8], Line::Change(Edit::Replace { file: "c" })));
    assert_eq!(rt; script_lines(alloc, b"")?.len(), 0);
    Ok(())
}
