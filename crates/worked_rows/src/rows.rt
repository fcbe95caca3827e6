// All rows.
use crate::beside_links::BESIDE_LINKS;
use crate::beside_offsets::BESIDE_OFFSETS;
use crate::beside_rights::BESIDE_RIGHTS;
use crate::beside_truncates::BESIDE_TRUNCATES;
use crate::bytes_at_offsets::BYTES_AT_OFFSETS;
use crate::bytes_of_truncates::BYTES_OF_TRUNCATES;
use crate::errors_at_links::ERRORS_AT_LINKS;
use crate::errors_at_offsets::ERRORS_AT_OFFSETS;
use crate::errors_of_links::ERRORS_OF_LINKS;
use crate::errors_of_rights::ERRORS_OF_RIGHTS;
use crate::errors_of_truncates::ERRORS_OF_TRUNCATES;
use crate::exchanges::EXCHANGES;
use crate::fifos::FIFOS;
use crate::files::FILES;
use crate::freed::FREED;
use crate::kept_rights::KEPT_RIGHTS;
use crate::links::LINKS;
use crate::names_of_truncates::NAMES_OF_TRUNCATES;
use crate::pipes::{HALVES, PIPES};
use crate::processes::{ENDED, PROCESSES};
use crate::ranges::RANGES;
use crate::renamed_files::RENAMED_FILES;
use crate::renames::RENAMES;
use crate::rights::RIGHTS;
use crate::row::Row;
use crate::shared::SHARED;
use crate::symbolic_links::SYMBOLIC_LINKS;
use crate::transactions::TRANSACTIONS;
use crate::trees::TREES;

// How many kinds of rows there are.
pub(crate) const KINDS: usize = 30;

// The rows of a kind, whose number is below `KINDS`. The functions that go over all of them do so in
// a loop, since the proof of a call for each kind is long.
pub(crate) fn rows_of(kind: usize) -> &'static [Row] {
    match kind {
        0 => &TRANSACTIONS,
        1 => &TREES,
        2 => &FILES,
        3 => &LINKS,
        4 => &FREED,
        5 => &RENAMES,
        6 => &RENAMED_FILES,
        7 => &SHARED,
        8 => &PIPES,
        9 => &HALVES,
        10 => &PROCESSES,
        11 => &ENDED,
        12 => &ERRORS_OF_TRUNCATES,
        13 => &BYTES_OF_TRUNCATES,
        14 => &NAMES_OF_TRUNCATES,
        15 => &BESIDE_TRUNCATES,
        16 => &ERRORS_AT_OFFSETS,
        17 => &BYTES_AT_OFFSETS,
        18 => &BESIDE_OFFSETS,
        19 => &SYMBOLIC_LINKS,
        20 => &FIFOS,
        21 => &ERRORS_OF_LINKS,
        22 => &ERRORS_AT_LINKS,
        23 => &BESIDE_LINKS,
        24 => &RIGHTS,
        25 => &KEPT_RIGHTS,
        26 => &ERRORS_OF_RIGHTS,
        27 => &BESIDE_RIGHTS,
        28 => &EXCHANGES,
        _ => &RANGES,
    }
}
