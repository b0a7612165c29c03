//! Words that are no command, and files that are not there or too long.
use crate::playing::play;
use std::test::Fail as Stopped;
use terrain_base::{SureLibrary, SureSink, SureStore, Work};
use terrain_top::{Status, run};

// What is printed where the words are no command.
const USAGE: &str =
    "usage: terrain DIR init CAP FILL | add FILE | replace FILE | remove SQUARE V | apply SCRIPT | rebuild | list | \
     inspect Z X Y | deps Z X Y | cell FILE | audit FILE | check | trial COUNT NUMBER | migrate | convert FILE | \
     heightmap Z X Y | height Z E N | profile Z X Y U1 V1 U2 V2 | sight Z X Y U1 V1 A1 U2 V2 A2 | view Z X Y U V A\n";

#[test]
fn words_that_are_no_command(rt: HostRuntime) -> Result<(), Stopped> {
    let alloc = rt.alloc();
    let mut store = SureStore::new(alloc);
    let mut files = SureLibrary::new(alloc);
    for line in [
        "",
        "init 15 0",
        "init 9 -0",
        "init 09 0",
        "init 9",
        "add",
        "add ",
        "replace ",
        "apply ",
        "remove n0e0",
        "remove n0e0 0",
        "remove n00e000",
        "remove n00e000 3",
        "inspect 0 2 0",
        "deps 15 0 0",
        "heightmap 0 2 0",
        "trial 65 1",
        "list x",
        "check x",
        "rebuild ",
        "cell",
        "cell ",
        "Cell long",
        "cell long long",
        "audit ",
        "convert ",
        "convert a b",
        "migrate x",
        "no",
    ] {
        play(
            &rt,
            alloc,
            &mut store,
            &mut files,
            &[(line, Status::Usage, USAGE)],
        )?;
    }
    Ok(())
}

#[test]
fn words_that_are_no_question_of_a_surface(rt: HostRuntime) -> Result<(), Stopped> {
    let alloc = rt.alloc();
    let mut store = SureStore::new(alloc);
    let mut files = SureLibrary::new(alloc);
    for line in [
        "height 15 0 0",
        "height 0 1296000 0",
        "height 0 0 648001",
        "height 0 01 0",
        "height 0 0 -0",
        "profile 0 0 0 1 1 1 1",
        "profile 0 0 0 1 1 32768 1",
        "profile 15 0 0 1 1 2 2",
        "profile 0 2 0 1 1 2 2",
        "profile 0 0 0 1 1 2",
        "sight 0 0 0 1 1 5 1 1 6",
        "sight 0 0 0 1 1 65536 2 2 0",
        "sight 0 0 0 1 1 0 2 2 -65536",
        "sight 0 0 0 1 1 -0 2 2 0",
        "sight 0 0 0 1 32768 0 2 2 0",
        "view 0 0 0 1 1 00",
        "view 0 0 0 1 1 -65536",
        "view 0 0 0 1 1",
    ] {
        play(
            &rt,
            alloc,
            &mut store,
            &mut files,
            &[(line, Status::Usage, USAGE)],
        )?;
    }
    Ok(())
}

// Neither is the folder alone, nor no word at all.
#[test]
fn a_folder_alone_is_no_command(rt: HostRuntime) -> Result<(), Stopped> {
    let alloc = rt.alloc();
    let mut store = SureStore::new(alloc);
    let mut files = SureLibrary::new(alloc);
    let mut words = Vec::new(alloc);
    for _ in 0..2 {
        let mut out = SureSink::new(alloc);
        let ended = run(
            alloc,
            &words,
            &mut store,
            &mut files,
            &mut out,
            &mut Work::new(),
        );
        assert_eq!(rt; out.taken(), USAGE.as_bytes());
        assert_eq!(rt; ended, Status::Usage);
        words.push(String::from_str(alloc, "db")?)?;
    }
    Ok(())
}

#[test]
fn absent_and_long_files_are_refused(rt: HostRuntime) -> Result<(), Stopped> {
    let alloc = rt.alloc();
    let mut store = SureStore::new(alloc);
    let mut files = SureLibrary::new(alloc);
    files.hold("long", vec![in alloc; 0u8; 33_554_433]?.as_slice())?;
    let table = [
        ("cell absent", Status::Refused, "refused F1 absent absent\n"),
        (
            "cell long",
            Status::Refused,
            "refused F2 too long long limit 33554432\n",
        ),
        (
            "audit absent",
            Status::Refused,
            "refused F1 absent absent\n",
        ),
        (
            "audit long",
            Status::Refused,
            "refused F2 too long long limit 16777216\n",
        ),
        (
            "add absent",
            Status::Refused,
            "refused K5 not a database line 0\n",
        ),
        ("init 0 0", Status::Done, "created cap 0 fill 0\n"),
        ("add absent", Status::Refused, "refused F1 absent absent\n"),
        (
            "replace long",
            Status::Refused,
            "refused F2 too long long limit 33554432\n",
        ),
        (
            "apply absent",
            Status::Refused,
            "refused F1 absent absent\n",
        ),
        (
            "apply long",
            Status::Refused,
            "refused F2 too long long limit 1048576\n",
        ),
    ];
    play(&rt, alloc, &mut store, &mut files, &table)
}
