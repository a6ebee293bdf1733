//! A rest where nobody makes a call.
use super::lock_of_two;
use machine::Adder;

#[test]
fn a_rest_ends_though_nobody_calls(rt: HostRuntime) {
    let Some((lock, mut one, _two)) = lock_of_two(rt.alloc(), Adder::new()) else {
        panic!(rt; "no memory");
    };
    lock.rest(&rt, 0);
    assert_eq!(rt; lock.len(&mut one), 0);
}
