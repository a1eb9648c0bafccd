//! Texts written again, and looked ahead in.
use row_text::{RewriteFault, rewrite};
use rows::{Damage, Reader};
use std::test::Fail;

#[test]
fn again(rt: HostRuntime) -> Result<(), Fail> {
    let text =
        b"0\tT\t-9223372036854775808\t9223372036854775807\t\t\n18446744073709551615\tM\t-\t10\t00ff\t1234567890\n";
    let mut out = Vec::from_slice(rt.alloc(), b"before ")?;
    assert!(rt; rewrite(text, &mut out).is_ok());
    assert!(rt; out.len() == 7 + text.len());
    assert!(rt; &out.as_slice()[7..] == text.as_slice());
    Ok(())
}

#[test]
fn damage_writes_nothing(rt: HostRuntime) -> Result<(), Fail> {
    let mut out = Vec::from_slice(rt.alloc(), b"before")?;
    let done = rewrite(b"1\tV\t-\t-\t\t\n2\tV\t-\t-\tzz\t\n", &mut out);
    assert!(rt;
        matches!(
            done,
            Err(RewriteFault::Damaged(Damage { line: 2, place: 18 }))
        )
    );
    assert!(rt; out.as_slice() == b"before".as_slice());
    Ok(())
}

#[test]
fn ahead(rt: HostRuntime) {
    let mut reader = Reader::new(b"1\tV\t-\t-\t61\t6263\n2\tT\t-\t-\t61\t\n");
    assert_eq!(rt; reader.look_ahead(), Ok((2, 4)));
    assert_eq!(rt; reader.advance(), Ok(true));
    assert_eq!(rt; reader.look_ahead(), Ok((1, 1)));
    assert_eq!(rt; reader.row().seq, 1);
    assert_eq!(rt; reader.advance(), Ok(true));
    assert_eq!(rt; reader.row().seq, 2);
}

#[test]
fn ahead_of_damage(rt: HostRuntime) {
    let mut reader = Reader::new(b"1\tV\t-\t-\t61\t62\n2\tT\t-\t-\t61\t00\n");
    assert_eq!(rt; reader.look_ahead(), Err(Damage { line: 2, place: 25 }));
    assert_eq!(rt; reader.advance(), Ok(true));
    assert_eq!(rt; reader.row().seq, 1);
    assert!(rt; reader.advance().is_err());
    assert_eq!(rt; reader.row().seq, 1);
}
