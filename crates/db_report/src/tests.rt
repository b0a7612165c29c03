//! Texts by examples.
use crate::{Edited, edited_line};
use std::test::Fail as Stopped;
use terrain_base::Square;

#[test]
fn edits_are_told(rt: HostRuntime) -> Result<(), Stopped> {
    let alloc = rt.alloc();
    let square = Square::of(180, 90).expect(&rt, "n00e000");
    let line = edited_line(alloc, Edited::Added, square, 22)?;
    assert_eq!(rt; line.as_str(), "added n00e000 tiles 22");
    Ok(())
}
