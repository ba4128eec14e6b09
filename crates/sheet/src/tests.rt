// Work figures on small examples.
use crate::{Room, read_sheet, tower_work};
use ground::Square;
use std::test::Fail;
use terms::Settings;

#[test]
fn tower_figures(rt: HostRuntime) {
    assert_eq!(rt; [tower_work(0), tower_work(1), tower_work(15)], [0, 1, 225]);
}

#[test]
fn sheet_figures(rt: HostRuntime) -> Result<(), Fail> {
    let ground = Square::new(4, 4)?;
    let settings = Settings::new(16, 1, 0)?;
    let bytes =
        b"GOAL     5     2                  \nGOAL     6     3                  \nGOAL    10    15                  \nEND      0                        \n";
    let sheet = read_sheet(&ground, &settings, bytes, Room::new(rt.alloc())?)?;
    assert_eq!(rt; sheet.work(), 238);
    let bytes = b"END      0                        \n";
    let sheet = read_sheet(&ground, &settings, bytes, Room::new(rt.alloc())?)?;
    assert_eq!(rt; sheet.work(), 0);
    Ok(())
}
