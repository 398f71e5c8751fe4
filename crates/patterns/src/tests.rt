use crate::like;
use std::test::Fail;

#[test]
fn patterns_of_texts(rt: HostRuntime) -> Result<(), Fail> {
    assert!(rt; like(b"w_", b"w5"));
    assert!(rt; like(b"w_", b"w\xc3\xa9"));
    assert!(rt; !like(b"w_", b"w55"));
    assert!(rt; !like(b"w_%\xa9", b"w\xc3\xa9"));
    assert!(rt; like(b"_%\xa9", b"w\xa9\xa9z\xa9"));
    assert!(rt; like(b"%b", b"ab"));
    assert!(rt; !like(b"%b", b"abc"));
    assert!(rt; like(b"%ab%c", b"aabxabc"));
    assert!(rt; !like(b"%ab%c%", b"acacbc"));
    assert!(rt; like(b"%%", b"anything"));
    assert!(rt; !like(b"", b"a"));
    assert!(rt; like(b"", b""));
    assert!(rt; like(b"%", b""));
    assert!(rt; !like(b"_", b""));
    assert!(rt; like(b"a%a", b"aa"));
    assert!(rt; !like(b"a%a", b"a"));
    Ok(())
}
