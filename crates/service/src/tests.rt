// Examples of lists of all eight calls.
use crate::*;
use gate::Call;
use ground::{Listed, Square};
use judge::{Accepted, Room, judge};
use std::test::Fail;
use terms::{Refusal, Rule, Settings};
use undertaking::{Answer, Performance};

// A robot enters with a block, lays it on the column in the middle, and leaves.
const SHEET: &[u8] =
    b"GOAL     4     1                  \nACT      0     1   S  S 1 M   1  0\nACT      1     2   1  0 1 D   4  0\nACT      2     3   1  0 0 M   E  E\nEND      3                        \n";

// Two robots lay in one timestep on both columns beside a third, which waits between them.
const BETWEEN: [&[u8]; 16] = [
    b"GOAL     3     1                  ",
    b"GOAL     4     1                  ",
    b"ACT      0     1   S  S 0 M   0  0",
    b"ACT      1     2   0  0 0 M   3  0",
    b"ACT      2     3   3  0 0 M   2  0",
    b"ACT      2     3   S  S 1 M   5  0",
    b"ACT      2     3   S  S 1 M   6  0",
    b"ACT      3     4   2  0 0 M   2  0",
    b"ACT      3     4   5  0 1 D   3  0",
    b"ACT      3     4   6  0 1 D   4  0",
    b"ACT      4     5   2  0 0 M   3  1",
    b"ACT      4     5   5  0 0 M   E  E",
    b"ACT      4     5   6  0 0 M   E  E",
    b"ACT      5     6   3  1 0 M   0  0",
    b"ACT      6     7   0  0 0 M   E  E",
    b"END     13                        ",
];

// The sheet, accepted under the first duration set.
fn accepted(rt: HostRuntime) -> Result<Accepted, Fail> {
    let room = Room::new(rt.alloc())?;
    let accepted = judge(&Square::new(3, 3)?, &Settings::new(2, 1, 0)?, SHEET, room)?;
    Ok(accepted)
}

// The number and the line of the refusal at that place, if there is one.
fn told(answers: &[Answer], at: usize) -> Option<(u16, u16)> {
    let refusal = answers.get(at).copied()?.err()?;
    Some((refusal.rule.number(), refusal.line))
}

// A plan is played; then the site is not fresh, and is not played on again.
#[test]
fn played_twice(rt: HostRuntime) -> Result<(), Fail> {
    let mut stage = Stage::new(rt.alloc(), 4)?;
    assert!(rt; stage.add(Deed::Play(accepted(rt)?)).is_ok());
    assert!(rt; stage.add(Deed::Play(accepted(rt)?)).is_ok());
    assert!(rt; stage.add(Deed::Call(Call::Recall)).is_ok());
    assert!(rt; stage.add(Deed::Call(Call::Tick)).is_ok());
    assert!(rt; stage.add(Deed::Call(Call::Tick)).is_err());
    let Performance { site, answers } = perform(stage, Square::new(3, 3)?, Settings::new(2, 1, 0)?);
    assert_eq!(rt; answers.len(), 4);
    assert_eq!(rt; told(answers.as_slice(), 0), None);
    assert_eq!(rt; told(answers.as_slice(), 1), Some((33, 0)));
    assert_eq!(rt; told(answers.as_slice(), 2), Some((32, 0)));
    assert_eq!(rt; site.robots(), 0);
    assert_eq!(rt; site.blocks_standing(), 1);
    assert_eq!(rt; site.look(4).height, 1);
    Ok(())
}

// Under other durations than those that it was accepted for, the gate answers each line.
#[test]
fn played_elsewhere(rt: HostRuntime) -> Result<(), Fail> {
    let mut stage = Stage::new(rt.alloc(), 1)?;
    assert!(rt; stage.add(Deed::Play(accepted(rt)?)).is_ok());
    let Performance { site, answers } = perform(stage, Square::new(3, 3)?, Settings::new(2, 1, 1)?);
    assert_eq!(rt; told(answers.as_slice(), 0), Some((24, 3)));
    assert_eq!(rt; site.robots(), 1);
    assert_eq!(rt; site.blocks_carried(), 1);
    Ok(())
}

// Of two lays that take a robot its ways home only together, the second is held, and the robots stand as they did.
#[test]
fn held_between_two_lays(rt: HostRuntime) -> Result<(), Fail> {
    let links = [(0, 3), (1, 4), (2, 3), (2, 4), (3, 5), (4, 6)];
    let ground = Listed::new(7, &[1, 1, 0, 0, 0, 1, 1], &links)?;
    let settings = Settings::new(2, 3, 0)?;
    let mut sheet = Vec::new(rt.alloc());
    for line in BETWEEN {
        sheet.extend_from_slice(line)?;
        sheet.push(b'\n')?;
    }
    let plan = judge(&ground, &settings, sheet.as_slice(), Room::new(rt.alloc())?)?;
    let mut stage = Stage::new(rt.alloc(), 1)?;
    assert!(rt; stage.add(Deed::Play(plan)).is_ok());
    let Performance { site, answers } = perform(stage, ground, settings);
    let held = answers.first().copied().and_then(|answer| answer.err());
    assert_eq!(rt; held, Some(Refusal::at(Rule::NoWayHome, 10, 2)));
    assert_eq!(rt; site.robots(), 3);
    assert_eq!(rt; site.blocks_carried(), 2);
    Ok(())
}
