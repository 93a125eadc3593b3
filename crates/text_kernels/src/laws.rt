//! The laws of the scans, proved as the contracts of empty functions.

ghost use Rattle.text_kernels.specs.Characters.{CountsCharacters, OrdersAsCharacters};
ghost use Rattle.text_kernels.specs.Rows.{ScanRowsStand};

/// In UTF-8 texts the code points are counted correctly, and two texts are ordered as their
/// characters are (RFC 3629, sections 1 and 3).
pub fn characters()
    ensures count { CountsCharacters }
    ensures order { OrdersAsCharacters }
{}

/// Bytes and texts with the results of the scans.
pub fn rows_stand()
    ensures { ScanRowsStand }
{}
