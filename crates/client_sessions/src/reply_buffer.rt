//! The bytes of a reply, in a buffer that has room for the longest reply.
ghost use Rattle.std.specs.Prelude.{◌≡◌, ◌<◌, ◌≤◌, ◌^◌, ◌+◌, false, length, drop, IfSome};
ghost use Rattle.ledger_model.specs.Sessions.{framed, is_too_long, max_value_len};

use crate::answer::Answer;
use crate::streams::SessionWriter;
use crate::transfers;
use ledger_model::{ApplyFault, Batch, Height, QueryAnswer, ReplicaId, SubmitRefusal, Tx};
use std::alloc::{AllocError, Global};
use std::io;
use std::marker::Model;

/// The most bytes of the body of a request or a reply: its length is written in two bytes.
pub(crate) const MAX_BODY_LEN: usize = 65_535;

/// The most bytes of a value in a reply, which also has a status, a height and a flag for the value.
const MAX_VALUE_LEN: usize = MAX_BODY_LEN - 6;

/// The number of bytes of the length, which precedes a body.
const PREFIX_LEN: usize = 2;

/// The first byte of a reply's body.
enum Status {
    Done = 0,
    Malformed = 1,
    Behind = 2,
    NotHeld = 3,
    HistoryFull = 4,
    NoReplica = 5,
    ValueTooLong = 6,
    Empty = 17,
    TooLong = 18,
    Duplicate = 19,
    PoolFull = 20,
    Rejected = 21,
    NoMemory = 22,
}

/// Whether the value of an answer fits into no reply.
pub(crate) fn is_too_long(answer: &QueryAnswer) -> bool
    ensures long { result ≡ is_too_long answer.now.value }
    ensures fits { result ≡ false → IfSome answer.now.value (λ v. length v ≤ max_value_len) }
{
    match &answer.value {
        Some(value) => value.len() > MAX_VALUE_LEN,
        None => false,
    }
}

/// Writes the length of the body into the two bytes that precede it.
fn put_length(bytes: &mut [u8])
    requires some { 2 ≤ length bytes.old }
    requires short { length bytes.old < 2 + 2 ^ 16 }
    ensures { bytes.new ≡ framed (drop 2 bytes.old) }
{
    let [high, low] = ((bytes.len() - PREFIX_LEN) as u16).to_be_bytes();
    bytes[0] = high;
    bytes[1] = low;
}

/// A reply. Contracts see its body. In the buffer, two bytes for the length precede the body.
#[derive(Drop)]
pub(crate) struct ReplyBuffer {
    bytes: Vec<u8>,
}

impl Model for ReplyBuffer {
    ghost use Rattle.std.specs.Prelude.{ℕ, ◌≤◌, List, length, drop, vec_capacity};

    ghost Value = { List ℕ };

    ghost view = { λ r. drop 2 r.bytes.items };

    ghost invariant = { λ r. (2 ≤ length r.bytes.items) × (length r.bytes.items ≤ 65537) × (65537 ≤ vec_capacity r.bytes) };
}

impl ReplyBuffer {
    ghost use Rattle.std.specs.Prelude.{◌≡◌, ◌<◌, ◌≤◌, ◌+◌, ◌*◌, [], ◌∷◌, ◌++◌, length, IfOk, IfSome};
    ghost use Rattle.std.specs.Int.{w32, to_be_bytes};
    ghost use Rattle.std.specs.List.{flat_map};
    ghost use Rattle.ledger_model.specs.Values.{IsTx, IsValue, value_bytes};
    ghost use Rattle.ledger_model.specs.Sessions.{receipt, refused, faulty, present, framed, max_value_len};
    ghost use Rattle.client_sessions.specs.Faults.{failures_in};
    ghost use Rattle.client_sessions.specs.Streams.{IsBody};
    ghost use Rattle.byte_streams.specs.Writing.{Writes};
    ghost use Rattle.client_sessions.specs.Answers.{reply_body, FitsReply};

    /// An empty reply. The only error is allocation failure.
    pub(crate) fn new(alloc: Global) -> Result<Self, AllocError>
        ensures { IfOk result (λ reply. reply ≡ []) }
    {
        let mut bytes = Vec::with_capacity(alloc, PREFIX_LEN + MAX_BODY_LEN)?;
        bytes.push_reserved(0);
        bytes.push_reserved(0);
        Ok(ReplyBuffer { bytes })
    }

    /// Removes all bytes of the body.
    fn clear(&mut self)
        ensures { self.new ≡ [] }
    {
        self.bytes.truncate(PREFIX_LEN);
    }

    fn put_u8(&mut self, byte: u8)
        requires { length self.old < 65535 }
        ensures { self.new ≡ self.old ++ byte ∷ [] }
    {
        self.bytes.push_reserved(byte);
    }

    fn put_bytes(&mut self, bytes: &[u8])
        requires { length self.old + length bytes.now ≤ 65535 }
        ensures { self.new ≡ self.old ++ bytes.now }
    {
        self.bytes.extend_from_slice(bytes).unwrap();
    }

    fn put_u32(&mut self, number: u32)
        requires { length self.old + 4 ≤ 65535 }
        ensures { self.new ≡ self.old ++ to_be_bytes w32 number }
    {
        self.put_bytes(&number.to_be_bytes());
    }

    fn put_tx(&mut self, tx: &Tx)
        requires { length self.old + 65 ≤ 65535 }
        ensures bytes { self.new ≡ self.old ++ length tx.now ∷ tx.now }
        ensures within { length self.new ≤ length self.old + 65 }
    {
        let bytes = tx.as_bytes();
        self.put_u8(bytes.len() as u8);
        self.put_bytes(bytes);
    }

    fn put_txs(&mut self, txs: &[Tx])
        requires { length self.old + 65 * length txs.now ≤ 65535 }
        ensures { self.new ≡ self.old ++ flat_map (λ tx. length tx ∷ tx) txs.now }
    {
        for tx in txs {
            self.put_tx(tx);
        }
    }

    fn put_batch(&mut self, batch: &Batch)
        requires { length self.old + 4161 ≤ 65535 }
        ensures { self.new ≡ self.old ++ value_bytes batch.now }
    {
        let transactions = batch.transactions();
        self.put_u8(transactions.len() as u8);
        self.put_txs(transactions);
    }

    fn put_value(&mut self, found: &QueryAnswer)
        requires room { length self.old ≤ 1 }
        requires short { IfSome found.now.value (λ v. length v ≤ max_value_len) }
        ensures { self.new ≡ self.old ++ to_be_bytes w32 found.now.height ++ present found.now.value }
    {
        self.put_u32(found.height.number());
        match &found.value {
            Some(value) => {
                self.put_u8(1);
                self.put_bytes(value);
            }
            None => self.put_u8(0),
        }
    }

    fn put_refusal(&mut self, refusal: SubmitRefusal)
        requires { length self.old ≤ 1 }
        ensures { self.new ≡ self.old ++ refused refusal }
    {
        match refusal {
            SubmitRefusal::Empty => self.put_u8(Status::Empty as u8),
            SubmitRefusal::TooLong => self.put_u8(Status::TooLong as u8),
            SubmitRefusal::Duplicate => self.put_u8(Status::Duplicate as u8),
            SubmitRefusal::Full => self.put_u8(Status::PoolFull as u8),
            SubmitRefusal::Rejected(code) => {
                self.put_u8(Status::Rejected as u8);
                self.put_u32(code);
            }
        }
    }

    fn put_fault(&mut self, fault: ApplyFault)
        requires { length self.old ≤ 1 }
        ensures { self.new ≡ self.old ++ faulty fault }
    {
        match fault {
            ApplyFault::HistoryFull => self.put_u8(Status::HistoryFull as u8),
            ApplyFault::NoMemory => self.put_u8(Status::NoMemory as u8),
        }
    }

    fn put_receipt(&mut self, replica: ReplicaId, index: u32)
        requires { length self.old ≤ 1 }
        ensures { self.new ≡ self.old ++ receipt replica index }
    {
        self.put_u8(replica.number());
        self.put_u32(index);
    }

    fn put_block(&mut self, height: Height, batch: &Batch)
        requires { length self.old ≤ 1 }
        ensures { self.new ≡ self.old ++ to_be_bytes w32 height ++ value_bytes batch.now }
    {
        self.put_u32(height.number());
        self.put_batch(batch);
    }

    /// Replaces the body by the encoding of this answer.
    pub(crate) fn put_answer(&mut self, answer: &Answer)
        requires { FitsReply answer.now }
        ensures { self.new ≡ reply_body answer.now }
    {
        self.clear();
        match answer {
            Answer::Switched => self.put_u8(Status::Done as u8),
            Answer::Receipt(replica, index) => {
                self.put_u8(Status::Done as u8);
                self.put_receipt(*replica, *index);
            }
            Answer::Value(found) => {
                self.put_u8(Status::Done as u8);
                self.put_value(found);
            }
            Answer::Height(height) => {
                self.put_u8(Status::Done as u8);
                self.put_u32(height.number());
            }
            Answer::Block(height, batch) => {
                self.put_u8(Status::Done as u8);
                self.put_block(*height, batch);
            }
            Answer::TooLong => self.put_u8(Status::ValueTooLong as u8),
            Answer::Malformed => self.put_u8(Status::Malformed as u8),
            Answer::Behind => self.put_u8(Status::Behind as u8),
            Answer::NotHeld => self.put_u8(Status::NotHeld as u8),
            Answer::NoReplica => self.put_u8(Status::NoReplica as u8),
            Answer::Refused(refusal) => self.put_refusal(*refusal),
            Answer::Faulted(fault) => self.put_fault(*fault),
        }
    }

    /// Sends the length and the body. After an error, a prefix of them was written.
    pub(crate) fn send<W: SessionWriter>(&mut self, output: &mut W) -> io::Result<()>
        ensures written { Writes result (W.contents output.old) (W.contents output.new) (framed self.old) }
        ensures short { IsBody self.old }
        ensures counted { W.failures output.new ≡ W.failures output.old + failures_in result }
    {
        put_length(self.bytes.as_mut_slice());
        transfers::send(output, self.bytes.as_slice())
    }
}
