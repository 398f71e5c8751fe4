use crate::{natural, natural_at};
use std::test::Fail;

#[test]
fn numbers_of_texts(rt: HostRuntime) -> Result<(), Fail> {
    assert!(rt; natural(b"0") == Some(0));
    assert!(rt; natural(b"007") == Some(7));
    assert!(rt; natural(b"9999999999999999999") == Some(9_999_999_999_999_999_999));
    assert!(rt; natural(b"18446744073709551616") == Some(1 << 64));
    let most: &[u8] = b"340282366920938463463374607431768211455";
    assert!(rt; natural(most) == Some(u128::MAX));
    let above: &[u8] = b"340282366920938463463374607431768211456";
    assert!(rt; natural(above) == Some(u128::MAX));
    assert!(rt; natural(b"").is_none());
    assert!(rt; natural(b"+1").is_none());
    assert!(rt; natural(b"12 ").is_none());
    assert!(rt; natural(b"1a2").is_none());
    assert!(rt; matches!(natural_at(b"120<=x"), Some((120, b"<=x"))));
    assert!(rt; matches!(natural_at(b"5"), Some((5, b""))));
    assert!(rt; natural_at(b"-5").is_none());
    Ok(())
}
