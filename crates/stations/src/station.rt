//! A station of a script.
ghost use Rattle.std.specs.Prelude.{◌≡◌};
ghost use Rattle.stations.specs.Stations.{Finds, ended_so, no_tables, one_more};

use super::Name;
use causes::Refusal;
use wal_init::Opening;

/// A station: its name, and the journal that it has opened.
#[derive(Drop)]
pub struct Station {
    pub name: Name,
    pub opening: Opening,
}

/// What a replay has handed out, and how it ended.
#[derive(Clone, Copy)]
pub struct Tables {
    pub tables: u64,
    pub rows: u64,
    pub ending: Ending,
}

/// How a replay ended.
// Kept: `Option<Result<(), Refusal>>` would be no plainer, since its `None` does not say that the replay can go on.
#[derive(Clone, Copy)]
pub enum Ending {
    /// It can still go on.
    Open,
    /// It answered the end.
    End,
    /// It broke off.
    Broken(Refusal),
}

impl Tables {
    /// Nothing was handed out yet.
    pub fn new() -> Tables
        ensures { result ≡ no_tables }
    {
        Tables {
            tables: 0,
            rows: 0,
            ending: Ending::Open,
        }
    }

    /// One table more, of so many rows.
    pub fn with_table(self, rows: usize) -> Tables
        ensures { result ≡ one_more self rows }
    {
        Tables {
            tables: self.tables.saturating_add(1),
            rows: self.rows.saturating_add(rows as u64),
            ..self
        }
    }

    /// The replay has ended so.
    pub fn with_ending(self, ending: Ending) -> Tables
        ensures { result ≡ ended_so self ending }
    {
        Tables { ending, ..self }
    }
}

/// The place of the station of a name.
pub fn find(stations: &[Station], name: &[u8]) -> Option<usize>
    ensures { Finds stations.now name.now result }
{
    stations
        .iter()
        .position(|station| station.name.as_bytes() == name)
}
