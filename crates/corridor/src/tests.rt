// A corridor, and a site over it: the gate and recall work there as over any ground.
use crate::Corridor;
use gate::{Next, Order, Plot, Site};
use ground::Ground;
use std::test::Fail;
use terms::{Rule, Settings};

#[test]
fn three_in_a_row(rt: HostRuntime) -> Result<(), Fail> {
    let corridor = Corridor::new(3)?;
    assert_eq!(rt;
        [
            corridor.is_border(0),
            corridor.is_border(1),
            corridor.is_border(2)
        ],
        [true, false, true]
    );
    assert_eq!(rt;
        [corridor.links(0), corridor.links(1), corridor.links(3)],
        [1, 2, 0]
    );
    assert_eq!(rt;
        [
            corridor.link(1, 0),
            corridor.link(1, 1),
            corridor.link(2, 1)
        ],
        [Some(0), Some(2), None]
    );
    let none = Corridor::new(0).err().map(|refusal| refusal.rule);
    assert_eq!(rt; none, Some(Rule::BorderList));
    Ok(())
}

// A robot goes in with a block and lays it; recall names its way out.
#[test]
fn in_and_out(rt: HostRuntime) -> Result<(), Fail> {
    let corridor = Corridor::new(5)?;
    let mut site = Site::open(Plot::new(rt.alloc())?, corridor, Settings::new(2, 1, 0)?);
    site.enter(0, true)?;
    site.tick();
    site.move_to(0, 1)?;
    site.tick();
    site.lay(1, 2)?;
    site.tick();
    let back = Order {
        column: 1,
        next: Next::Moves { to: 0 },
        left: 2,
    };
    assert_eq!(rt; site.recall()?, back);
    site.move_to(1, 0)?;
    site.tick();
    let out = Order {
        column: 0,
        next: Next::Leaves,
        left: 1,
    };
    assert_eq!(rt; site.recall()?, out);
    site.leave(0)?;
    site.tick();
    assert_eq!(rt; (site.robots(), site.look(2).height), (0, 1));
    Ok(())
}
