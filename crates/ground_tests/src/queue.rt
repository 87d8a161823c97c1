use dedupe_queue::{Work, WorkQueue};
use std::alloc::AllocError;

fn written_at(slot: u64) -> Work {
    Work {
        ino: 1,
        round: 0,
        slot,
    }
}

#[test]
fn gives_the_oldest_first(rt: HostRuntime) -> Result<(), AllocError> {
    let [first, second, third] = [written_at(65), written_at(66), written_at(129)];
    let mut queue = WorkQueue::new(rt.alloc());
    assert_eq!(rt; (queue.front(), queue.pop(), queue.len()), (None, None, 0));
    queue.reserve(2)?;
    queue.push(first);
    queue.push(second);
    assert_eq!(rt;
        (queue.get(0), queue.get(1), queue.get(2)),
        (Some(first), Some(second), None)
    );
    assert_eq!(rt;
        (queue.front(), queue.pop(), queue.len()),
        (Some(first), Some(first), 1)
    );
    queue.reserve(1)?;
    queue.push(third);
    assert_eq!(rt;
        (queue.pop(), queue.pop(), queue.pop()),
        (Some(second), Some(third), None)
    );
    assert!(rt; queue.is_empty());
    Ok(())
}
