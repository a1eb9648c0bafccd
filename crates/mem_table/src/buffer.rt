//! A row with storage of its own.
use crate::digits::Digits;
use rows::Kind;
use std::marker::Model;

mod methods;

/// A row that is filled in. A contract sees it as the row that it holds.
#[derive(Drop)]
pub struct RowBuf {
    seq: u64,
    kind: Kind,
    create_ts: Option<i64>,
    expire_ts: Option<i64>,
    key: Digits<128>,
    value: Digits<2048>,
}

impl Model for RowBuf {
    ghost use Rattle.rows.specs.Rows.{Row, Valid};

    ghost Value = { Row };

    ghost use Rattle.mem_table.specs.Buffers.{held_by};

    ghost view = { held_by };

    ghost invariant = { λ b. Valid (held_by b) };
}
