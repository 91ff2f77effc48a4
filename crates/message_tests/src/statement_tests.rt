//! Statements and their bytes.
ghost use Rattle.ledger_model.specs.Spelling.{IsStatement};

use super::spellings::{ACK, ALL_REPORT, REPORT, joined, lock_of};
use ledger_model::{Batch, SignedReport, Statement};
use octets::Cursor;
use statements::{
    DecodeFault, decode, encode, encoded_len, report_len, reports_len, take_signature_bytes,
    take_statement,
};
use std::alloc::{AllocError, Global};
use test_support::{ack_bytes, report_bytes, value};

// What `look` finds in a statement, if one was read.
fn seen<T, F: FnOnce(&Statement) -> T>(read: Result<Statement, DecodeFault>, look: F) -> Option<T>
    requires { F.IsAlwaysCallable look }
{
    match read {
        Ok(statement) => Some(look(&statement)),
        Err(_) => None,
    }
}

// The kind of a statement, its signer, its height and its phase.
fn shown(statement: &Statement) -> (char, (u8, u32, u32)) {
    let kind = match statement {
        Statement::Report(_) => 'r',
        Statement::Lock(_) => 'l',
        Statement::Ack(_) => 'a',
    };
    let signer = statement.signer().number();
    let place = (
        signer,
        statement.height().number(),
        statement.phase().number(),
    );
    (kind, place)
}

// The number of bytes of a report, or of a lock's reports.
fn len_of_reports(statement: &Statement) -> usize
    requires { IsStatement statement.now }
{
    match statement {
        Statement::Report(report) => report_len(report),
        Statement::Lock(lock) => reports_len(lock.proof.as_slice()),
        Statement::Ack(_) => 0,
    }
}

// The number of bytes of a statement and of its reports, if it is encoded to these bytes.
fn lens(alloc: Global, statement: &Statement, bytes: &[u8]) -> Option<(usize, usize)>
    requires { IsStatement statement.now }
{
    let encoded = encode(alloc, statement).ok()?;
    if encoded.as_slice() != bytes {
        return None;
    }
    Some((encoded_len(statement), len_of_reports(statement)))
}

// The same for the statement that these bytes encode.
fn lens_as_read(alloc: Global, bytes: &[u8]) -> Option<(usize, usize)> {
    match decode(alloc, bytes) {
        Ok(statement) => lens(alloc, &statement, bytes),
        Err(_) => None,
    }
}

// Whether the statement with these bytes is shown so, and has these lengths.
fn are_read(
    alloc: Global,
    bytes: &[u8],
    wanted: (char, (u8, u32, u32)),
    lens: (usize, usize),
) -> bool {
    seen(decode(alloc, bytes), shown) == Some(wanted) && lens_as_read(alloc, bytes) == Some(lens)
}

// An acknowledgement of a batch of transactions of one length; the count and the lengths may be wrong.
fn batch_bytes(alloc: Global, count: u8, len: u8) -> Result<Vec<u8>, AllocError> {
    let mut bytes = joined(alloc, &[&ACK[..10], &[count]])?;
    put_transactions(&mut bytes, count, len)?;
    Ok(bytes)
}

fn put_transactions(bytes: &mut Vec<u8>, count: u8, len: u8) -> Result<(), AllocError> {
    let letters = [0x61; 255];
    for _ in 0..count {
        bytes.push(len)?;
        bytes.extend_from_slice(&letters[..usize::from(len)])?;
    }
    Ok(())
}

// Whether the statement that was built is read so.
fn are_built(
    alloc: Global,
    built: Result<Vec<u8>, AllocError>,
    wanted: (char, (u8, u32, u32)),
    lens: (usize, usize),
) -> bool {
    match &built {
        Ok(bytes) => are_read(alloc, bytes, wanted, lens),
        Err(_) => false,
    }
}

#[test]
fn reads_and_writes_statements(rt: HostRuntime) {
    let alloc = rt.alloc();
    assert!(rt; are_read(alloc, &REPORT, ('r', (0, 1, 1)), (23, 23)));
    assert!(rt; are_read(alloc, &ALL_REPORT, ('r', (9, 2, 3)), (21, 21)));
    assert!(rt; are_read(alloc, &ACK, ('a', (2, 1, 1)), (15, 0)));
    let lock = lock_of(alloc, 3, &[0, 2, 3]);
    assert!(rt; are_built(alloc, lock, ('l', (1, 1, 1)), (97, 81)));
    let batch = batch_bytes(alloc, 16, 64);
    assert!(rt; are_built(alloc, batch, ('a', (2, 1, 1)), (1051, 0)));
}

// Whether a report has ALL, and the numbers of transactions of its initial value, of proper values, and of locked values.
fn counts_of(statement: &Statement) -> Option<(bool, usize, usize, usize)> {
    let Statement::Report(report) = statement else {
        return None;
    };
    Some((
        report.all,
        report.initial.transactions().len(),
        report.proper.as_slice().len(),
        report.locked.as_slice().len(),
    ))
}

#[test]
fn reads_the_fields_of_reports(rt: HostRuntime) {
    for (bytes, wanted) in [
        (REPORT.as_slice(), (false, 1, 1, 0)),
        (&ALL_REPORT, (true, 0, 2, 1)),
    ] {
        assert!(rt;
            seen(decode(rt.alloc(), bytes), counts_of) == Some(Some(wanted)),
            "{wanted:?}"
        );
    }
}

// Whether a report names a value, and whether it finds it.
fn found(statement: &Statement, value: &Batch) -> Option<(bool, bool)> {
    match statement {
        Statement::Report(report) => Some((report.initial == *value, report.finds(value))),
        _ => None,
    }
}

// The same for the batch of one transaction.
fn found_by(alloc: Global, bytes: &[u8], tx: &[u8]) -> Option<(bool, bool)> {
    let value = value(alloc, tx).ok()?;
    seen(decode(alloc, bytes), |statement| found(statement, &value))?
}

// The second report has ALL, and lists only [z] as locked.
#[test]
fn a_decoded_report_finds_values(rt: HostRuntime) {
    for (bytes, tx, wanted) in [
        (REPORT.as_slice(), b"a=1".as_slice(), (true, true)),
        (&REPORT, b"b=2", (false, false)),
        (&ALL_REPORT, b"z", (false, true)),
        (&ALL_REPORT, b"a=1", (false, false)),
    ] {
        assert!(rt;
            found_by(rt.alloc(), bytes, tx) == Some(wanted),
            "{tx:?} {wanted:?}"
        );
    }
}

// Whether the signature of each report consists of its signer's number and 5.
fn are_signed(reports: &[SignedReport]) -> bool {
    for signed in reports {
        let signer = signed.report.signer.number();
        if signed.signature.as_bytes() != [signer, 5].as_slice() {
            return false;
        }
    }
    true
}

// The number of a lock's reports, and whether each is signed so.
fn proof_of(statement: &Statement) -> Option<(usize, bool)> {
    let Statement::Lock(lock) = statement else {
        return None;
    };
    let reports = lock.proof.as_slice();
    Some((reports.len(), are_signed(reports)))
}

// The signers of a lock need not be replicas of a cluster.
#[test]
fn reads_a_lock(rt: HostRuntime) {
    let bytes = lock_of(rt.alloc(), 3, &[0, 2, 255]).expect(&rt, "memory");
    assert!(rt; seen(decode(rt.alloc(), &bytes), proof_of) == Some(Some((3, true))));
}

// The builders of `test_support` build what is written by hand here.
#[test]
fn builders_spell_the_same(rt: HostRuntime) {
    assert!(rt; report_bytes(1, 1, 0, b'a') == REPORT && ack_bytes(1, 1, 2, b'a') == ACK);
}

fn is_malformed(alloc: Global, bytes: &[u8]) -> bool {
    decode(alloc, bytes).err() == Some(DecodeFault::Malformed)
}

fn is_malformed_lock(alloc: Global, count: u8, signers: &[u8]) -> Option<bool> {
    let bytes = lock_of(alloc, count, signers).ok()?;
    Some(is_malformed(alloc, &bytes))
}

#[test]
fn counts_the_reports_of_a_lock(rt: HostRuntime) {
    let thirteen = [0u8, 1, 2, 3, 4, 5, 6, 7, 8, 9, 10, 11, 12];
    for (count, signers, wanted) in [
        (2, [0u8, 2].as_slice(), true),
        (3, &[0, 2], true),
        (3, &[0, 2, 2], true),
        (3, &[2, 0, 3], true),
        (12, &thirteen[..12], false),
        (13, &thirteen, true),
    ] {
        let is_malformed = is_malformed_lock(rt.alloc(), count, signers);
        assert!(rt; is_malformed == Some(wanted), "{count} {signers:?}");
    }
}

fn is_malformed_batch(alloc: Global, count: u8, len: u8) -> Option<bool> {
    let bytes = batch_bytes(alloc, count, len).ok()?;
    Some(is_malformed(alloc, &bytes))
}

#[test]
fn counts_transactions(rt: HostRuntime) {
    for (count, len, wanted) in [(17, 1, true), (1, 65, true), (1, 0, true), (0, 0, false)] {
        let is_malformed = is_malformed_batch(rt.alloc(), count, len);
        assert!(rt; is_malformed == Some(wanted), "{count} {len}");
    }
}

// Whether the report with one of its bytes changed is malformed.
fn is_malformed_at(alloc: Global, at: usize, byte: u8) -> bool {
    let mut changed = REPORT;
    if at < changed.len() {
        changed[at] = byte;
    }
    is_malformed(alloc, &changed)
}

// An unknown kind; height 0 and phase 0; a flag of 2; 17 transactions announced, and one of no bytes; no proper value.
#[test]
fn refuses_other_bytes(rt: HostRuntime) {
    for (at, byte) in [
        (0, 4),
        (0, 0),
        (4, 0),
        (8, 0),
        (10, 2),
        (11, 17),
        (12, 0),
        (16, 0),
    ] {
        assert!(rt; is_malformed_at(rt.alloc(), at, byte), "{at} {byte}");
    }
}

// A report of replica 0 on the empty batch, up to its proper values: [] twice, [z] before [], and [z] before [aa],
// which is wrong because lengths are compared first.
#[test]
fn refuses_values_that_do_not_ascend(rt: HostRuntime) {
    for (bytes, wanted) in [
        (
            [1, 0, 0, 0, 1, 0, 0, 0, 1, 0, 0, 0, 2, 0, 0, 0].as_slice(),
            true,
        ),
        (
            &[1, 0, 0, 0, 1, 0, 0, 0, 1, 0, 0, 0, 2, 1, 1, 0x7a, 0, 0],
            true,
        ),
        (
            &[
                1, 0, 0, 0, 1, 0, 0, 0, 1, 0, 0, 0, 2, 1, 1, 0x7a, 1, 2, 0x61, 0x61, 0,
            ],
            false,
        ),
    ] {
        assert!(rt; is_malformed(rt.alloc(), bytes) == wanted, "{bytes:?}");
    }
}

#[test]
fn refuses_beginnings_and_more(rt: HostRuntime) {
    let longer = joined(rt.alloc(), &[&REPORT, &[0]]).expect(&rt, "memory");
    assert!(rt; is_malformed(rt.alloc(), &longer));
    for len in 0..REPORT.len() {
        assert!(rt; is_malformed(rt.alloc(), &REPORT[..len]), "{len}");
    }
}

// Whether these bytes start with an acknowledgement of replica 2, and no statement follows.
fn has_one_ack(alloc: Global, bytes: &[u8], rest: &[u8]) -> bool {
    let mut cursor = Cursor::new(bytes);
    seen(take_statement(alloc, &mut cursor), shown) == Some(('a', (2, 1, 1)))
        && take_statement(alloc, &mut cursor).is_err()
        && cursor.rest() == rest
}

#[test]
fn takes_from_the_front(rt: HostRuntime) {
    let rest = [0, 2, 5, 6, 7];
    let bytes = joined(rt.alloc(), &[&ACK, &rest]).expect(&rt, "memory");
    assert!(rt; has_one_ack(rt.alloc(), &bytes, &rest));
}

// The number of bytes of the signature at the front, or none if it is malformed; and the number of bytes that are left.
fn signature_taken(bytes: &[u8]) -> (Option<usize>, usize) {
    let mut cursor = Cursor::new(bytes);
    match take_signature_bytes(&mut cursor) {
        Ok(signature) => (Some(signature.len()), cursor.len()),
        Err(_) => (None, cursor.len()),
    }
}

// The same for a length followed by `count` bytes 7, at most 2514 bytes in all.
fn taken_of([first, second]: [u8; 2], count: usize) -> (Option<usize>, usize) {
    let mut bytes = [7; 2514];
    bytes[0] = first;
    bytes[1] = second;
    signature_taken(bytes.get(..count).unwrap_or(&[]))
}

// A signature has at most 2508 bytes.
#[test]
fn takes_signatures(rt: HostRuntime) {
    for (len, count, wanted) in [
        ([0, 2], 5, (Some(2), 1)),
        ([0, 2], 3, (None, 3)),
        ([9, 0xcc], 2512, (Some(2508), 2)),
        ([9, 0xcc], 2509, (None, 2509)),
        ([9, 0xcd], 2514, (None, 2514)),
        ([7, 7], 1, (None, 1)),
    ] {
        assert!(rt; taken_of(len, count) == wanted, "{count}");
    }
}

// Whether the cursor takes this as a signature's bytes, and these bytes are left.
fn takes(cursor: &mut Cursor<'_>, wanted: Result<&[u8], DecodeFault>, rest: &[u8]) -> bool {
    take_signature_bytes(cursor) == wanted && cursor.rest() == rest
}

// The bytes after the length are the signature, and the cursor is after them; if they are too short, the cursor doesn't move.
#[test]
fn takes_the_bytes_of_a_signature(rt: HostRuntime) {
    let mut cursor = Cursor::new(&[0, 2, 5, 6, 7]);
    assert!(rt; takes(&mut cursor, Ok([5, 6].as_slice()), &[7]));
    assert!(rt; takes(&mut cursor, Err(DecodeFault::Malformed), &[7]));
}
