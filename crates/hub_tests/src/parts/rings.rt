//! Rings: numbers and bytes in one buffer.

use crate::compare::same;
use hub_base::Value;
use hub_parts::Ring;
use std::process::Abort;

/// Two bytes.
fn two_bytes(rt: &impl Abort) -> Value {
    Value::bytes(b"\x01\x02").expect(rt, "two bytes")
}

// A ring keeps numbers apart from whatever came since other values did; what comes out does not tell.
#[test]
fn numbers_and_bytes_keep_their_order(rt: HostRuntime) {
    let bytes = two_bytes(&rt);
    let mut ring = Ring::new(rt.alloc(), 3).expect(&rt, "memory for a ring");
    ring.push(&Value::num(1));
    ring.push(&bytes);
    ring.push(&Value::num(2));
    let items = [ring.item(0), ring.item(1), ring.item(2), ring.item(3)];
    same(
        &rt,
        items,
        [Some(Value::num(1)), Some(bytes), Some(Value::num(2)), None],
        "items",
    );
    same(
        &rt,
        ring.pop(),
        Some(Value::num(1)),
        "the number that came first",
    );
    ring.push(&Value::num(3));
    same(&rt, ring.len(), 3, "values");
    same(&rt, ring.pop(), Some(bytes), "bytes");
    same(
        &rt,
        ring.pop(),
        Some(Value::num(2)),
        "the number behind them",
    );
    same(&rt, ring.pop(), Some(Value::num(3)), "the last one");
    same(&rt, ring.pop(), None, "none is left");
}
