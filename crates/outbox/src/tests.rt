use crate::{OutText, Outbox};
use scalar_val::NoMemory;
use std::alloc::Global;
use std::test::Fail;

fn push(alloc: Global, queue: &mut Outbox, text: &str) -> Result<(), NoMemory> {
    match queue.push(OutText::of(alloc, text.as_bytes())?) {
        Ok(()) => Ok(()),
        Err(_back) => Err(NoMemory),
    }
}

fn pops(queue: &mut Outbox, expected: &str) -> bool {
    match queue.pop_one() {
        Some(text) => text.as_bytes() == expected.as_bytes(),
        None => false,
    }
}

#[test]
fn texts_leave_in_their_order(rt: HostRuntime) -> Result<(), Fail> {
    let alloc = rt.alloc();
    let mut queue = Outbox::new(alloc);
    for text in ["", "a", "{\"é\":1}", "a"] {
        push(alloc, &mut queue, text)?;
    }
    for text in ["", "a"] {
        assert!(rt; pops(&mut queue, text));
    }
    push(alloc, &mut queue, "last")?;
    for text in ["{\"é\":1}", "a", "last"] {
        assert!(rt; pops(&mut queue, text));
    }
    assert!(rt; queue.pop_one().is_none());
    Ok(())
}

#[test]
fn a_text_outlives_its_other_owners(rt: HostRuntime) -> Result<(), Fail> {
    let alloc = rt.alloc();
    let first = OutText::from_vec(alloc, vec![in alloc; b'x', 0, 255]?)?;
    let second = first.share()?;
    drop(first);
    assert_eq!(rt; second.as_bytes(), [b'x', 0, 255].as_slice());
    Ok(())
}

#[test]
fn reserved_room_takes_texts(rt: HostRuntime) -> Result<(), Fail> {
    let alloc = rt.alloc();
    let mut queue = Outbox::new(alloc);
    assert!(rt; queue.reserve(usize::MAX).is_err());
    queue.reserve(3)?;
    for text in ["1", "2", "3"] {
        push(alloc, &mut queue, text)?;
    }
    for text in ["1", "2", "3"] {
        assert!(rt; pops(&mut queue, text));
    }
    Ok(())
}

fn is_send_and_sync<T: Send + Sync + Drop>(_value: T) {}

#[test]
fn texts_and_queues_may_be_shared_by_threads(rt: HostRuntime) -> Result<(), Fail> {
    is_send_and_sync(OutText::of(rt.alloc(), b"a")?);
    is_send_and_sync(Outbox::new(rt.alloc()));
    Ok(())
}
