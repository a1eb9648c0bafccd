//! What holds of openings and their windows on every store, by their promises alone.

ghost use Rattle.wal_init.specs.Laws.{OneOpening, OneArrival, OneTaking, GrantedOpeningsFence, CoveredIdsTakeOne, FreeIdsAreGranted, FilesStay, RefusedOpeningsLeave};

/// On a steady store each call has one outcome; a granted opening has its fence at the first free id, a free id is granted, a refused opening adds no file, and no file ever changes.
pub fn opening_stands() -> u8
    ensures one_opening { OneOpening }
    ensures one_arrival { OneArrival }
    ensures one_taking { OneTaking }
    ensures granted { GrantedOpeningsFence }
    ensures covered { CoveredIdsTakeOne }
    ensures free { FreeIdsAreGranted }
    ensures stay { FilesStay }
    ensures refused { RefusedOpeningsLeave }
{
    0
}
