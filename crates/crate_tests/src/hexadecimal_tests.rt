// Lines of text read as octets, and octets as text.
use hexadecimal::{Hex, HexLine, NotOctets};
use std::test::Fail;

// A line with this text, read a byte at a time.
fn line_with(text: &[u8]) -> HexLine {
    let mut line = HexLine::new();
    for byte in text {
        line.push(*byte);
    }
    line
}

#[test]
fn lines(rt: HostRuntime) {
    assert!(rt; line_with(b"04 00 01").told() == Ok(Some(&[4, 0, 1])));
    assert!(rt; line_with(b"  0400 01 ").told() == Ok(Some(&[4, 0, 1])));
    assert!(rt; line_with(b"Fe0A\r").told() == Ok(Some(&[254, 10])));
    assert!(rt; line_with(b"  ").told() == Ok(Some(&[])));
    assert!(rt; line_with(&[b'7'; 400]).told() == Ok(Some(&[0x77; 126])));

    assert!(rt; line_with(b"").told() == Ok(None));
    assert!(rt; line_with(b"\r").told() == Ok(None));
    assert!(rt; line_with(b"# 04\r0").told() == Ok(None));

    assert!(rt; line_with(b"04 0").told() == Err(NotOctets));
    assert!(rt; line_with(b"0 4").told() == Err(NotOctets));
    assert!(rt; line_with(b"04\t").told() == Err(NotOctets));
    assert!(rt; line_with(b"04\r\r").told() == Err(NotOctets));
    assert!(rt; line_with(b" # 04").told() == Err(NotOctets));
}

#[test]
fn texts(rt: HostRuntime) -> Result<(), Fail> {
    let none = format!(in rt.alloc(); "{}", Hex(&[]))?;
    let some = format!(in rt.alloc(); "{}", Hex(&[0, 255, 0x1b]))?;
    let refused = format!(in rt.alloc(); "{NotOctets}")?;
    assert_eq!(rt; none.as_str(), "-");
    assert_eq!(rt; some.as_str(), "00ff1b");
    assert_eq!(rt; refused.as_str(), "not octets");
    Ok(())
}
