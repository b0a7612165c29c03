//! A trial of a few commands: the numbers are those that another program, made apart from this one, tells of it.
use super::*;
use dted_cell::CellTrouble;
use std::test::Fail as Failed;
use terrain_base::Work;

#[test]
fn the_totals_of_a_trial_are_equal(rt: HostRuntime) -> Result<(), Failed> {
    let mut work = Work::new();
    let trouble: Option<CellTrouble> = None;
    let report = run_trial(rt.alloc(), 3, 1, &mut work)?;
    assert!(rt; trouble.is_none());
    assert_eq!(rt; (report.count, report.number), (3, 1));
    assert_eq!(rt; (report.accepted, report.refused), (2, 1));
    assert_eq!(rt; (report.cells, report.tiles), (2, 46));
    assert_eq!(rt; (report.bytes, report.scratch), (767383, 767383));
    Ok(())
}
