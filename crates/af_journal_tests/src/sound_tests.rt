//! The bytes of frames.
use af_base::{Frame, Items};
use af_tally::push_pcm;
use std::test::Fail;

#[test]
fn frames_are_four_bytes_each(rt: HostRuntime) -> Result<(), Fail> {
    let mut bytes = Items::with_room(rt.alloc(), 8)?;
    push_pcm(&[Frame { left: 1, right: -1 }], &mut bytes);
    push_pcm(
        &[Frame {
            left: 256,
            right: -32768,
        }],
        &mut bytes,
    );
    let expected = [1, 0, 255, 255, 0, 1, 0, 128];
    assert_eq!(rt; bytes.as_slice(), expected.as_slice());
    Ok(())
}
