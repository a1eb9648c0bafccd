//! Keys and values at their greatest lengths, and the sizes of rows.
use row_text::read_text;
use rows::{
    BlockSize, Damage, Kind, Reader, Totals, ValueDeletable, estimate_encoded_size_compacted,
    estimate_encoded_size_wal,
};
use std::alloc::{AllocError, Global};
use std::test::Fail;

/// A line whose key and value have so many bytes.
fn long_line(heap: Global, key: usize, value: usize) -> Result<Vec<u8>, AllocError> {
    let mut text = Vec::from_slice(heap, b"1\tV\t-\t-\t")?;
    for _ in 0..key {
        text.extend_from_slice(b"6b")?;
    }
    text.push(b'\t')?;
    for _ in 0..value {
        text.extend_from_slice(b"76")?;
    }
    text.push(b'\n')?;
    Ok(text)
}

#[test]
fn longest(rt: HostRuntime) -> Result<(), Fail> {
    let text = long_line(rt.alloc(), 64, 1024)?;
    match read_text(text.as_slice()) {
        Ok(totals) => {
            assert_eq!(rt; totals.size, 64 + 1024 + 8);
            Ok(())
        },
        Err(_) => Err(Fail::new("damaged")),
    }
}

#[test]
fn too_long(rt: HostRuntime) -> Result<(), Fail> {
    let text = long_line(rt.alloc(), 65, 0)?;
    let damage = read_text(text.as_slice()).err();
    assert_eq!(rt;
        damage,
        Some(Damage {
            line: 1,
            place: 136
        })
    );
    let text = long_line(rt.alloc(), 0, 1025)?;
    let damage = read_text(text.as_slice()).err();
    assert_eq!(rt;
        damage,
        Some(Damage {
            line: 1,
            place: 2057
        })
    );
    Ok(())
}

#[test]
fn one_row(rt: HostRuntime) {
    let mut reader = Reader::new(b"7\tV\t100\t-\t6131\t00ff\n");
    assert_eq!(rt; reader.advance(), Ok(true));
    let row = reader.row();
    assert_eq!(rt; row.seq, 7);
    assert_eq!(rt; row.create_ts, Some(100));
    assert_eq!(rt; row.expire_ts, None);
    assert!(rt; row.key == b"6131".as_slice());
    assert!(rt; matches!(row.value, ValueDeletable::Value(_)));
    assert_eq!(rt; row.estimated_size(), 20);
    assert_eq!(rt; reader.advance(), Ok(false));
}

#[test]
fn handed_out(rt: HostRuntime) -> Result<(), Fail> {
    let mut reader = Reader::new(b"7\tM\t-\t-\t61\t6263\n");
    let Ok(Some(row)) = reader.next_row() else {
        return Err(Fail::new("no row"));
    };
    assert_eq!(rt; row.seq, 7);
    assert_eq!(rt; row.weight(), 3);
    assert_eq!(rt; row.value.kind(), Kind::Merge);
    assert_eq!(rt; Kind::try_from(b'M'), Ok(Kind::Merge));
    assert_eq!(rt; u8::from(Kind::Merge), b'M');
    assert!(rt; matches!(reader.next_row(), Ok(None)));
    Ok(())
}

#[test]
fn estimates(rt: HostRuntime) -> Result<(), Fail> {
    assert!(rt; BlockSize::new(0).is_err());
    assert!(rt; BlockSize::new(65_537).is_err());
    assert!(rt; BlockSize::new(65_536).is_ok());
    let Ok(block) = BlockSize::new(4096) else {
        return Err(Fail::new("refused"));
    };
    assert_eq!(rt; estimate_encoded_size_wal(Totals::new(1, 20), block), 130);
    assert_eq!(rt;
        estimate_encoded_size_compacted(Totals::new(1, 20), block),
        192
    );
    assert_eq!(rt;
        estimate_encoded_size_compacted(Totals::new(0, 20), block),
        0
    );
    Ok(())
}
