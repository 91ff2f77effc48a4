//! Laws of the applications that hold whatever transactions they get, proved from the definitions alone.
ghost use Rattle.app_kinds.specs.Balances.{TotalStays};
ghost use Rattle.app_kinds.specs.Determined.{BytesDetermine};

/// No transaction makes or loses money: the balances of a purse add up to 256,000.
pub fn total_stays()
    ensures { TotalStays }
{}

/// The bytes whose SHA-256 is the hash determine what an application answers from then on, whatever led to them.
pub fn bytes_determine()
    ensures { BytesDetermine }
{}
