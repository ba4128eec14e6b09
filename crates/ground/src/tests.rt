// What grounds answer on small examples.
use crate::*;
use std::array;
use std::test::Fail;
use terms::Refusal;

// The number that a refusal is reported under, if it is one.
fn refused<T: Drop>(made: Result<T, Refusal>) -> Option<u16> {
    made.err().map(|refusal| refusal.rule.number())
}

// The first five columns linked with a column.
fn linked<G: Ground>(ground: &G, c: u16) -> [Option<u16>; 5] {
    array::from_fn(|k| ground.link(c, k))
}

#[test]
fn square_sizes(rt: HostRuntime) {
    assert_eq!(rt; refused(Square::new(16, 1)), None);
    assert_eq!(rt; refused(Square::new(17, 1)), Some(1));
    assert_eq!(rt; refused(Square::new(3, 17)), Some(1));
    assert_eq!(rt; refused(Square::new(0, 5)), Some(1));
    assert_eq!(rt; refused(Square::new(5, 0)), Some(1));
}

#[test]
fn most_links(rt: HostRuntime) {
    assert_eq!(rt; [Square::MOST_LINKS, Listed::MOST_LINKS], [4, 6]);
}

#[test]
fn square_links(rt: HostRuntime) -> Result<(), Fail> {
    let ground = Square::new(3, 5)?;
    assert_eq!(rt;
        linked(&ground, 7),
        [Some(2), Some(6), Some(8), Some(12), None]
    );
    assert_eq!(rt; linked(&ground, 14), [Some(9), Some(13), None, None, None]);
    assert_eq!(rt; linked(&ground, 15), [None; 5]);
    assert_eq!(rt;
        [ground.links(7), ground.links(14), ground.links(15)],
        [4, 2, 0]
    );
    assert_eq!(rt;
        [
            is_linked(&ground, 4, 9),
            is_linked(&ground, 4, 5),
            is_linked(&ground, 14, 15),
        ],
        [true, false, false]
    );
    Ok(())
}

#[test]
fn square_border(rt: HostRuntime) -> Result<(), Fail> {
    let ground = Square::new(3, 5)?;
    assert_eq!(rt; ground.columns(), 15);
    assert_eq!(rt;
        [
            ground.is_border(0),
            ground.is_border(9),
            ground.is_border(12),
        ],
        [true; 3]
    );
    assert_eq!(rt;
        [
            ground.is_border(6),
            ground.is_border(8),
            ground.is_border(15),
        ],
        [false; 3]
    );
    Ok(())
}

#[test]
fn border_lists(rt: HostRuntime) {
    assert_eq!(rt; refused(Listed::new(0, &[], &[])), Some(2));
    assert_eq!(rt; refused(Listed::new(256, &[1; 256], &[])), None);
    assert_eq!(rt; refused(Listed::new(257, &[1; 257], &[])), Some(2));
    assert_eq!(rt; refused(Listed::new(3, &[1, 2, 0], &[])), Some(2));
    assert_eq!(rt; refused(Listed::new(3, &[1, 1], &[])), Some(2));
}

#[test]
fn link_lists(rt: HostRuntime) {
    assert_eq!(rt;
        refused(Listed::new(3, &[1; 3], &[(1, 2), (0, 1)])),
        Some(3)
    );
    assert_eq!(rt;
        refused(Listed::new(3, &[1; 3], &[(0, 1), (0, 1)])),
        Some(3)
    );
    assert_eq!(rt; refused(Listed::new(3, &[1; 3], &[(1, 1)])), Some(3));
    assert_eq!(rt; refused(Listed::new(3, &[1; 3], &[(1, 3)])), Some(3));
    let six = [(0, 2), (0, 3), (0, 4), (0, 5), (0, 6), (0, 7)];
    let seven = [(0, 1), (0, 2), (0, 3), (0, 4), (0, 5), (0, 6), (0, 7)];
    assert_eq!(rt; refused(Listed::new(8, &[1; 8], &six)), None);
    assert_eq!(rt; refused(Listed::new(8, &[1; 8], &seven)), Some(4));
}

#[test]
fn listed_tells(rt: HostRuntime) -> Result<(), Fail> {
    let links = [(0, 3), (1, 4), (2, 3), (2, 4), (3, 5), (4, 6)];
    let ground = Listed::new(7, &[1, 1, 0, 0, 0, 1, 1], &links)?;
    assert_eq!(rt; linked(&ground, 3), [Some(0), Some(2), Some(5), None, None]);
    assert_eq!(rt; linked(&ground, 7), [None; 5]);
    assert_eq!(rt; [ground.links(3), ground.links(7)], [3, 0]);
    assert_eq!(rt;
        [
            ground.is_border(1),
            ground.is_border(2),
            ground.is_border(7),
        ],
        [true, false, false]
    );
    assert_eq!(rt;
        [
            is_linked(&ground, 6, 4),
            is_linked(&ground, 4, 6),
            is_linked(&ground, 3, 4),
        ],
        [true, true, false]
    );
    Ok(())
}
