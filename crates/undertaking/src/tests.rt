// Examples of the gate and of recall, on a square and on a listed ground.
use crate::{Performance, Request, Stage, perform};
use gate::{Call, Next, Plot, Site};
use ground::{Ground, Listed, Square};
use std::process::Abort;
use std::test::Fail;
use terms::Settings;

// A call, the number and the detail of its refusal, if it is refused, and the ticks after it.
#[derive(Clone, Copy)]
struct Row {
    call: Call,
    told: Option<(u16, u16)>,
    ticks: u8,
}

// A call that is granted, and the ticks after it.
fn granted(call: Call, ticks: u8) -> Row {
    Row {
        call,
        told: None,
        ticks,
    }
}

// A call that is refused by the rule of that number, with a detail, and the ticks after it.
fn refused(call: Call, number: u16, detail: u16, ticks: u8) -> Row {
    Row {
        call,
        told: Some((number, detail)),
        ticks,
    }
}

// The number and the detail of the refusal, if the call is refused.
fn told<G: Ground>(site: &mut Site<G>, call: Call) -> Option<(u16, u16)> {
    let refusal = call.make(site).err()?;
    Some((refusal.rule.number(), refusal.detail))
}

// Makes the calls of a table, and compares what they answer.
fn follow<G: Ground>(rt: &impl Abort, site: &mut Site<G>, rows: &[Row]) {
    for row in rows {
        assert_eq!(rt; told(site, row.call), row.told);
        for _ in 0..row.ticks {
            site.tick();
        }
    }
}

// Obeys recall until no robot is there; each order names as many actions as are left.
fn obey<G: Ground>(rt: &impl Abort, site: &mut Site<G>, actions: u32) -> Result<(), Fail> {
    for left in (1..=actions).rev() {
        let order = site.recall()?;
        assert_eq!(rt; order.left, left);
        let call = match order.next {
            Next::Leaves => Call::Leave {
                column: order.column,
            },
            Next::Moves { to } => Call::Move {
                from: order.column,
                to,
            },
        };
        follow(rt, site, &[granted(call, 3)]);
    }
    assert_eq!(rt; told(site, Call::Recall), Some((32, 0)));
    assert_eq!(rt; site.robots(), 0);
    Ok(())
}

// The calls of a table.
fn enter(column: u16, block: bool) -> Call {
    Call::Enter { column, block }
}

fn go(from: u16, to: u16) -> Call {
    Call::Move { from, to }
}

fn lay(from: u16, to: u16) -> Call {
    Call::Lay { from, to }
}

fn lift(from: u16, to: u16) -> Call {
    Call::Lift { from, to }
}

fn leave(column: u16) -> Call {
    Call::Leave { column }
}

// Each refusal of each call, with robots at three border columns.
fn refused_calls() -> [Row; 33] {
    [
        refused(Call::Recall, 32, 0, 0),
        refused(enter(15, false), 23, 0, 0),
        refused(enter(6, false), 26, 0, 0),
        granted(enter(5, true), 0),
        refused(Call::Recall, 31, 0, 0),
        refused(go(5, 6), 24, 0, 0),
        refused(leave(5), 24, 0, 0),
        refused(enter(5, false), 27, 0, 1),
        granted(enter(0, false), 1),
        granted(enter(1, false), 1),
        refused(enter(2, false), 29, 0, 0),
        refused(go(5, 99), 23, 0, 0),
        refused(go(99, 5), 23, 0, 0),
        refused(go(3, 4), 24, 0, 0),
        refused(go(5, 7), 26, 0, 0),
        refused(go(5, 0), 27, 0, 0),
        refused(leave(99), 23, 0, 0),
        refused(leave(3), 24, 0, 0),
        refused(lay(5, 15), 23, 0, 0),
        refused(lift(1, 15), 23, 0, 0),
        refused(lay(2, 7), 24, 0, 0),
        refused(lift(2, 7), 24, 0, 0),
        refused(lay(1, 6), 25, 0, 0),
        refused(lift(5, 6), 25, 0, 0),
        refused(lay(5, 0), 26, 0, 0),
        refused(lay(5, 7), 26, 0, 0),
        refused(lift(1, 7), 26, 0, 0),
        refused(lift(1, 6), 28, 0, 0),
        granted(go(1, 6), 1),
        refused(lay(5, 6), 27, 0, 0),
        refused(leave(6), 26, 0, 0),
        granted(go(0, 1), 1),
        refused(lift(1, 6), 27, 0, 0),
    ]
}

// A lay and a lift that run, one after the other, and what is refused meanwhile.
fn running_calls() -> [Row; 13] {
    [
        granted(go(6, 7), 1),
        granted(lay(5, 6), 0),
        refused(Call::Recall, 31, 0, 1),
        granted(leave(5), 1),
        granted(enter(5, true), 1),
        refused(lay(5, 6), 28, 0, 0),
        granted(lift(1, 6), 0),
        refused(Call::Recall, 31, 0, 1),
        granted(lay(1, 6), 1),
        granted(go(7, 2), 1),
        granted(leave(2), 1),
        granted(leave(1), 1),
        granted(leave(5), 1),
    ]
}

// A move over two heights, and the hill from which a lift would strand a robot.
fn hill() -> [Row; 17] {
    [
        granted(enter(2, true), 1),
        granted(lay(2, 7), 1),
        granted(leave(2), 1),
        granted(enter(1, true), 1),
        granted(go(1, 6), 1),
        granted(lay(6, 7), 1),
        refused(lay(6, 7), 25, 0, 0),
        granted(go(6, 1), 1),
        granted(leave(1), 1),
        granted(enter(2, false), 1),
        refused(go(2, 7), 28, 0, 0),
        granted(leave(2), 1),
        granted(enter(1, false), 1),
        granted(go(1, 6), 1),
        granted(go(6, 7), 1),
        granted(enter(5, false), 1),
        refused(lift(5, 6), 30, 7, 0),
    ]
}

// Each refusal of each call, and the way home from a hill.
#[test]
fn on_a_square(rt: HostRuntime) -> Result<(), Fail> {
    let mut site = Site::open(
        Plot::new(rt.alloc())?,
        Square::new(3, 5)?,
        Settings::new(3, 3, 0)?,
    );
    follow(&rt, &mut site, &refused_calls());
    follow(&rt, &mut site, &running_calls());
    follow(&rt, &mut site, &hill());
    assert_eq!(rt; site.look(6).height, 1);
    assert_eq!(rt; site.look(7).height, 2);
    assert_eq!(rt; site.blocks_standing(), 3);
    assert_eq!(rt; site.blocks_carried(), 0);
    obey(&rt, &mut site, 4)
}

// Two lays that strand a robot only together, and a lift that would.
#[test]
fn on_a_row(rt: HostRuntime) -> Result<(), Fail> {
    let row = Listed::new(5, &[1, 0, 0, 0, 1], &[(0, 1), (1, 2), (2, 3), (3, 4)])?;
    let mut site = Site::open(Plot::new(rt.alloc())?, row, Settings::new(2, 3, 1)?);
    let rows = [
        granted(enter(0, false), 2),
        granted(go(0, 1), 1),
        granted(go(1, 2), 1),
        granted(enter(0, true), 2),
        granted(enter(4, true), 2),
        granted(lay(0, 1), 0),
        refused(Call::Recall, 31, 0, 0),
        refused(lay(4, 3), 30, 2, 2),
        granted(lay(4, 3), 0),
        refused(lift(0, 1), 30, 2, 2),
        granted(lift(0, 1), 1),
        refused(Call::Recall, 31, 0, 1),
    ];
    follow(&rt, &mut site, &rows);
    assert_eq!(rt; site.blocks_standing(), 1);
    assert_eq!(rt; site.blocks_carried(), 1);
    obey(&rt, &mut site, 5)
}

// A lay raises its column when it ends; a robot enters at the tick at which another has left.
#[test]
fn in_as_another_has_left(rt: HostRuntime) -> Result<(), Fail> {
    let mut site = Site::open(
        Plot::new(rt.alloc())?,
        Square::new(3, 3)?,
        Settings::new(2, 1, 3)?,
    );
    let rows = [granted(enter(1, true), 3), granted(lay(1, 4), 2)];
    follow(&rt, &mut site, &rows);
    assert_eq!(rt; site.look(4).height, 0);
    let rows = [
        granted(Call::Tick, 0),
        granted(leave(1), 2),
        refused(enter(1, false), 27, 0, 0),
        refused(enter(3, false), 29, 0, 1),
        granted(enter(1, false), 3),
        granted(lift(1, 4), 2),
    ];
    follow(&rt, &mut site, &rows);
    assert_eq!(rt; site.blocks_carried(), 1);
    obey(&rt, &mut site, 1)
}

// A list of calls from the opening: the second and the third come while the robot still enters.
#[test]
fn a_list_of_calls(rt: HostRuntime) -> Result<(), Fail> {
    let calls = vec![in rt.alloc(); enter(1, true), lay(1, 4), Call::Recall]?;
    let stage = Stage::of(rt.alloc(), calls)?;
    let Performance { site, answers } = perform(stage, Square::new(3, 3)?, Settings::new(2, 1, 3)?);
    assert_eq!(rt; answers.len(), 3);
    for (answer, number) in answers.iter().zip([None, Some(24), Some(31)]) {
        let refusal = (*answer).err();
        assert_eq!(rt; refusal.map(|refusal| refusal.rule.number()), number);
    }
    assert_eq!(rt; site.blocks_carried(), 1);
    Ok(())
}
