// What judging answers on small sheets.
use crate::*;
use ground::Square;
use std::test::Fail;
use terms::Settings;

const GOAL: &[u8] = b"GOAL     4     1                  ";

const NOTE: &[u8] = b"NOTE                              ";

const ENTRY: &[u8] = b"ACT      0     1   S  S 1 M   1  0";

const LAY: &[u8] = b"ACT      1     2   1  0 1 D   4  0";

const LEAVE: &[u8] = b"ACT      2     3   1  0 0 M   E  E";

const END: &[u8] = b"END      3                        ";

// Of four lines and END: the makespan and the costs, or the number, the line and the detail of the first broken rule.
fn told(
    rt: HostRuntime,
    a: &[u8],
    b: &[u8],
    c: &[u8],
    d: &[u8],
) -> Result<Result<(u32, u64), (u16, u16, u16)>, Fail> {
    let mut sheet = Vec::new(rt.alloc());
    for line in [a, b, c, d, END] {
        sheet.extend_from_slice(line)?;
        sheet.push(b'\n')?;
    }
    let ground = Square::new(3, 3)?;
    let settings = Settings::new(2, 1, 0)?;
    let judged = judge(&ground, &settings, sheet.as_slice(), Room::new(rt.alloc())?);
    Ok(
        judged.map(|plan| (plan.makespan(), plan.costs())).map_err(|refusal| (
            refusal.rule.number(),
            refusal.line,
            refusal.detail,
        )),
    )
}

#[test]
fn accepted(rt: HostRuntime) -> Result<(), Fail> {
    assert_eq!(rt; told(rt, GOAL, ENTRY, LAY, LEAVE)?, Ok((3, 3)));
    let entry = b"ACT      0     1   S  S 0 M   1  0";
    let wait = b"ACT      1     2   1  0 0 M   1  0";
    assert_eq!(rt; told(rt, NOTE, entry, wait, LEAVE)?, Ok((3, 3)));
    Ok(())
}

#[test]
fn line_rules(rt: HostRuntime) -> Result<(), Fail> {
    let empty = b"ACT      1     2   1  0 0 D   4  0";
    assert_eq!(rt; told(rt, GOAL, ENTRY, empty, LEAVE)?, Err((11, 3, 0)));
    let high = b"ACT      1     2   1  1 1 D   4  1";
    assert_eq!(rt; told(rt, GOAL, ENTRY, high, LEAVE)?, Err((12, 3, 0)));
    let climb = b"ACT      1     2   1  0 1 M   1  1";
    assert_eq!(rt; told(rt, GOAL, ENTRY, climb, LEAVE)?, Err((13, 3, 0)));
    let long = b"ACT      1     3   1  0 1 D   4  0";
    assert_eq!(rt; told(rt, GOAL, ENTRY, long, LEAVE)?, Err((14, 3, 0)));
    Ok(())
}

#[test]
fn judge_rules(rt: HostRuntime) -> Result<(), Fail> {
    let early = b"ACT      0     1   1  0 0 M   E  E";
    assert_eq!(rt; told(rt, GOAL, ENTRY, LAY, early)?, Err((15, 4, 0)));
    let late = b"ACT      2     3   1  0 1 D   4  0";
    assert_eq!(rt; told(rt, GOAL, ENTRY, late, LEAVE)?, Err((16, 3, 1)));
    let high = b"ACT      2     3   1  1 0 M   E  E";
    assert_eq!(rt; told(rt, GOAL, ENTRY, LAY, high)?, Err((17, 4, 0)));
    assert_eq!(rt; told(rt, GOAL, ENTRY, ENTRY, LEAVE)?, Err((18, 3, 2)));
    let loaded = b"ACT      2     3   1  0 1 M   E  E";
    assert_eq!(rt; told(rt, GOAL, ENTRY, LAY, loaded)?, Err((19, 4, 0)));
    let second = b"ACT      0     1   S  S 0 M   0  0";
    assert_eq!(rt; told(rt, GOAL, ENTRY, second, LEAVE)?, Err((20, 3, 0)));
    Ok(())
}

#[test]
fn end_rules(rt: HostRuntime) -> Result<(), Fail> {
    let wait = b"ACT      2     3   1  0 0 M   1  0";
    assert_eq!(rt; told(rt, GOAL, ENTRY, LAY, wait)?, Err((21, 4, 0)));
    assert_eq!(rt; told(rt, NOTE, ENTRY, LAY, LEAVE)?, Err((22, 5, 4)));
    Ok(())
}
