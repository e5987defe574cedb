//! Channels that are opened again.

use crate::Channel;
use hub_base::Value;
use std::test::*;

// A number and bytes are buffered, each in a queue of its own, and both are gone: the buffer is kept where the capacity is
// the same, and another is made where it is not.
#[test]
fn reopened_channel_has_no_value_of_before(rt: HostRuntime) -> Result<(), Fail> {
    for cap in [2, 3] {
        let mut channel = Channel::make(rt.alloc(), 2, 1)?;
        channel.push(&Value::num(1));
        channel.push(&Value::bytes(b"\x01").expect(&rt, "a byte"));
        channel.shut();
        channel.reopen(rt.alloc(), cap)?;
        assert!(rt; channel.cap() == cap && channel.len() == 0 && !channel.is_closed());
        assert!(rt; channel.item(0).is_none() && channel.pop().is_none());
        channel.push(&Value::num(2));
        assert!(rt; channel.item(0) == Some(Value::num(2)) && channel.item(1).is_none());
    }
    Ok(())
}
