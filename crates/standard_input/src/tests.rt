// Reading succeeds: nothing, less than there is, as much, and more.
use super::*;
use std::test::Fail;

#[test]
fn the_most_is_read_and_the_rest_is_gone(rt: HostRuntime) -> Result<(), Fail> {
    for (most, front) in [(0, ""), (2, "ab"), (3, "abc"), (4, "abc")] {
        let mut input = b"abc".as_slice();
        let mut room = [0; 4];
        let bytes = read_most(&mut input, &mut room[..most])?;
        assert_eq!(rt; bytes, front.as_bytes());
        read_rest(&mut input)?;
        assert!(rt; input.is_empty());
    }
    Ok(())
}
