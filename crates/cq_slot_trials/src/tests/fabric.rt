//! Queues over which nothing has come yet.
use cq_fabric::{Gone, Queues};
use std::test::Fail;

// Whether nothing waits in queues of two ports, and nothing leaves them.
fn have_nothing(queues: &mut Queues) -> bool {
    let sizes = (
        queues.ports(),
        queues.lists().len(),
        queues.offers().ports(),
    );
    let are_empty = queues.are_empty();
    let mut gone = Gone::none();
    queues.depart(&mut gone);
    sizes == (2, 2, 2) && are_empty && gone.of_outputs(64) == [None; 64].as_slice()
}

#[test]
fn nothing_waits_and_nothing_leaves_at_first(rt: HostRuntime) -> Result<(), Fail> {
    let mut queues = Queues::new(rt.alloc(), &[1, 2], &[2, 1])?;
    assert!(rt; have_nothing(&mut queues));
    Ok(())
}
