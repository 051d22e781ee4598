//! Reading up to a limit, over memory.

use nv_stream::{Contents, Unread, read_whole};

fn is_whole(read: &Result<Contents, Unread>, bytes: &[u8]) -> bool {
    match read {
        Ok(Contents::Whole(found)) => found.as_slice() == bytes,
        _ => false,
    }
}

#[test]
fn no_more_than_the_limit_is_read(rt: HostRuntime) {
    let held = read_whole(rt.alloc(), b"abc".as_slice(), 1, 3);
    assert!(rt; is_whole(&held, b"abc"));
    let longer = read_whole(rt.alloc(), b"abcd".as_slice(), 3, 3);
    assert!(rt; matches!(&longer, Ok(Contents::Longer(None))));
}
