//! Each way to ask for an order.
use sq_orders::Chosen;
use sq_port::{Order, Picks, SeedOrder};
use std::test::Fail;

#[test]
fn each_order_picks_as_asked(rt: HostRuntime) -> Result<(), Fail> {
    assert_eq!(rt; Chosen::first().pick(9), 0);
    assert_eq!(rt; Chosen::last().pick(9), 8);
    assert_eq!(rt; Chosen::seeded(7).pick(9), SeedOrder::new(7).pick(9));
    let mut list = Chosen::listed(Picks::new(vec![in rt.alloc(); 4, 2]?));
    assert_eq!(rt; list.pick(9), 4);
    assert_eq!(rt; list.pick(9), 2);
    assert_eq!(rt; list.pick(9), 0);
    Ok(())
}
