use super::*;
use axp_base::Line;
use std::test::*;

#[test]
fn pairs_come_in_order(rt: HostRuntime) -> Result<(), Fail> {
    let mut queue = LateQueue::with_room(rt.alloc(), 3).ok().ok_or("memory")?;
    let first = Line::of(0x4000);
    let second = Line::of(0x4040);
    assert_eq!(rt; queue.is_empty(), true);
    assert_eq!(rt; queue.take(), None);
    assert_eq!(rt; queue.oldest(), None);

    queue.add(first, 5);
    queue.add(second, 7);
    assert_eq!(rt; queue.oldest(), Some((first, 5)));
    queue.add(first, 9);
    assert_eq!(rt; queue.is_empty(), false);
    assert_eq!(rt; queue.later(first, 8), true);
    assert_eq!(rt;
        queue.later(first, 9),
        false,
        "the stamp is the last turn of the line"
    );
    assert_eq!(rt; queue.later(second, 6), true);
    assert_eq!(rt; queue.later(second, 7), false, "the stamp is the turn");
    assert_eq!(rt; queue.later(Line::of(0x8000), 0), false, "another line");

    assert_eq!(rt; queue.take(), Some((first, 5)));
    assert_eq!(rt; queue.take(), Some((second, 7)));
    assert_eq!(rt; queue.later(second, 0), false, "it was taken");
    queue.clear();
    assert_eq!(rt; queue.is_empty(), true);
    assert_eq!(rt; queue.take(), None);
    queue.add(second, 3);
    assert_eq!(rt; queue.take(), Some((second, 3)));
    Ok(())
}
