//! Laws of records, proved from the definitions alone: what a reader may conclude from what it read.
ghost use Rattle.history_log.specs.RecordLaws.{WrittenRecordBegins, OneRecord, OneRecords, LogGrows, LastTagFollows, CutIsNoRecord, CutIsTorn, CutHasInnerTag, CutRecords, LongerIsDamage, ChangedLengthIsDamage, ImpossibleLengthIsDamage};

/// A record that was written is read back, and no other.
pub fn one_record()
    ensures begins { WrittenRecordBegins }
    ensures one { OneRecord }
{}

/// Up to a place where no record begins, bytes are the records of one list of contents.
pub fn one_log()
    ensures { OneRecords }
{}

/// A log grows by the record that follows its last one.
pub fn growing_log()
    ensures grown { LogGrows }
    ensures last { LastTagFollows }
{}

/// A record that was cut anywhere is no record. It is torn unless its content contains the tag of a shorter prefix,
/// right after that prefix.
pub fn cut_record()
    ensures none { CutIsNoRecord }
    ensures torn { CutIsTorn }
    ensures inner { CutHasInnerTag }
{}

/// If records are cut anywhere, what is left is the first of them, all whole, and a cut one.
pub fn cut_log()
    ensures { CutRecords }
{}

/// A changed record is damage if only its length was changed, or if its length wasn't changed and something follows it,
/// unless all bytes are zero. Four bytes or more are damage if they announce more than 2^24 content bytes.
pub fn damage()
    ensures longer { LongerIsDamage }
    ensures length { ChangedLengthIsDamage }
    ensures impossible { ImpossibleLengthIsDamage }
{}
