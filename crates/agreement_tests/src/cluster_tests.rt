//! Four replicas, each with its own keys, that pass frames to each other: what they send, and that one of them decides.

ghost use Rattle.std.specs.Prelude.{◌≡◌, IfSome};
ghost use Rattle.ledger_model.specs.Notes.{signer_of, version_of};
ghost use Rattle.ledger_model.specs.Spelling.{IsStatement};
ghost use Rattle.instance.specs.Plans.{IsOwnMade};

use super::replica::OpenHeight;
use bytes::Bytes;
use instance::{OwnFrame, RoundEffects, RoundPlan, RoundStatement};
use key_ring::KeyRing;
use ledger_model::{Config, Signature, Statement};
use signed_frames::{Frame, UnsignedFrame};
use std::alloc::{AllocError, Global};
use test_support::{TestCluster, value};

// The frame of the statement, which its signer signs.
fn framed(alloc: Global, cluster: &mut TestCluster, statement: Statement) -> Option<Frame>
    requires { IsStatement statement }
    ensures { IfSome result (λ frame. frame.statement ≡ statement) }
{
    let signer = statement.signer().number();
    let Ok(unsigned) = UnsignedFrame::new(alloc, statement) else {
        return None;
    };
    let Ok(signature) = cluster.signature(signer, unsigned.statement_bytes()) else {
        return None;
    };
    if signature.len() > Signature::MAX_LEN {
        return None;
    }
    unsigned.with_signature(&signature).ok()
}

// The round's statement for a chosen statement.
fn made(
    alloc: Global,
    config: &Config,
    cluster: &mut TestCluster,
    statement: Option<Statement>,
    number: u8,
) -> Option<RoundStatement>
    requires spelled { IfSome statement IsStatement }
    requires own { IfSome statement (λ s. signer_of s ≡ number) }
    requires version { IfSome statement (λ s. version_of s ≡ config.now.frames) }
    ensures { IfSome result (IsOwnMade config.now number) }
{
    let Some(statement) = statement else {
        return Some(RoundStatement::Unsent);
    };
    let frame = framed(alloc, cluster, statement)?;
    Some(RoundStatement::Sent(OwnFrame::new(alloc, frame).ok()?))
}

// Appends the frame. Returns whether there was memory for it.
fn put(frames: &mut Vec<Bytes>, frame: Result<Bytes, AllocError>) -> bool {
    match frame {
        Ok(frame) => frames.push(frame).is_ok(),
        Err(_) => false,
    }
}

// Appends the frames that are sent, the replica's own first. Returns whether there was memory.
fn put_sent(frames: &mut Vec<Bytes>, ending: &RoundEffects, made: &RoundStatement) -> bool {
    let mut are_put = true;
    if let RoundStatement::Sent(own) = made {
        are_put &= put(frames, own.frame().share());
    }
    for frame in ending.sends_on() {
        are_put &= put(frames, frame.clone());
    }
    are_put
}

impl OpenHeight {
    // Opens the next round, and appends the frames that are sent. Returns whether there was memory.
    fn sends_round(&mut self, cluster: &mut TestCluster, frames: &mut Vec<Bytes>) -> bool {
        if self.clock >= 1000 {
            return false;
        }
        let Ok(RoundPlan { statement, ending }) = self.instance.plan_end(self.alloc, self.clock)
        else {
            return false;
        };
        let Some(made) = made(self.alloc, &self.config, cluster, statement, self.number) else {
            return false;
        };
        let are_put = put_sent(frames, &ending, &made);
        self.instance.close(ending, made, self.clock);
        self.clock += 1;
        are_put
    }

    // The frames that it sends as the next round opens.
    fn frames_of_round(&mut self, cluster: &mut TestCluster) -> Option<Vec<Bytes>> {
        let mut frames = Vec::new(self.alloc);
        if self.sends_round(cluster, &mut frames) {
            Some(frames)
        } else {
            None
        }
    }

    // Reads or ignores each of the frames. Returns whether there was memory for all.
    fn reads_all(&mut self, ring: &KeyRing, frames: &[Bytes]) -> bool {
        for frame in frames {
            if self.ignores(ring, frame.as_slice()).is_none() {
                return false;
            }
        }
        true
    }

    // Whether it has decided its own value.
    fn has_decided(&self) -> Option<bool> {
        let own = value(self.alloc, b"a=1").ok()?;
        match self.instance.decided() {
            Some(decided) => Some(*decided == own),
            None => Some(false),
        }
    }
}

fn put_four(alloc: Global, replicas: &mut Vec<OpenHeight>) -> Option<()> {
    for number in 0..4 {
        replicas.push(OpenHeight::open(alloc, number)?).ok()?;
    }
    Some(())
}

fn four_replicas(alloc: Global) -> Option<Vec<OpenHeight>> {
    let mut replicas = Vec::new(alloc);
    put_four(alloc, &mut replicas)?;
    Some(replicas)
}

// Ends every replica's round, and returns the frames that each sends.
fn end_rounds(
    replicas: &mut [OpenHeight],
    cluster: &mut TestCluster,
    sent: &mut Vec<Vec<Bytes>>,
) -> Option<()> {
    for replica in replicas.iter_mut() {
        sent.push(replica.frames_of_round(cluster)?).ok()?;
    }
    Some(())
}

// Lets a replica read what the others sent. Returns whether there was memory.
fn reads_others(replica: &mut OpenHeight, ring: &KeyRing, sent: &[Vec<Bytes>]) -> bool {
    for (sender, frames) in sent.iter().enumerate() {
        if sender != usize::from(replica.number) && !replica.reads_all(ring, frames) {
            return false;
        }
    }
    true
}

// Whether each replica sent this number of frames.
fn have_lens(sent: &[Vec<Bytes>], counts: [usize; 4]) -> bool {
    match sent {
        [first, second, third, fourth] => {
            [first.len(), second.len(), third.len(), fourth.len()] == counts
        }
        _ => false,
    }
}

// Ends every replica's round, and then lets each read what the others sent. Returns whether each sent this number of frames.
fn pass_round(
    replicas: &mut [OpenHeight],
    cluster: &mut TestCluster,
    counts: [usize; 4],
) -> Option<bool> {
    let mut sent = Vec::new(replicas.first()?.alloc);
    end_rounds(replicas, cluster, &mut sent)?;
    for replica in replicas.iter_mut() {
        if !reads_others(replica, cluster.ring(), &sent) {
            return None;
        }
    }
    Some(have_lens(&sent, counts))
}

// All propose [a=1]. The owner of phase 1 decides it as the fourth round ends, and no other replica does.
#[test]
fn the_owner_of_the_first_phase_decides(rt: HostRuntime) {
    let mut cluster = TestCluster::new(rt.alloc(), 4, 1).expect(&rt, "a cluster");
    let mut replicas = four_replicas(rt.alloc()).expect(&rt, "four replicas");
    for (round, counts) in [
        (1, [1, 1, 1, 1]),
        (2, [0, 1, 0, 0]),
        (3, [1, 0, 1, 1]),
        (4, [1, 1, 1, 1]),
    ] {
        let are_sent = pass_round(&mut replicas, &mut cluster, counts);
        assert!(rt; are_sent == Some(true), "round {round}");
    }
    for (number, replica) in replicas.iter().enumerate() {
        let has_decided = replica.has_decided();
        assert!(rt; has_decided == Some(number == 1), "replica {number}");
    }
}

// Four replicas, of which each proposes another value.
fn four_different(alloc: Global) -> Option<Vec<OpenHeight>> {
    let mut replicas = Vec::new(alloc);
    for (number, tx) in [(0, b"a=1"), (1, b"b=1"), (2, b"c=1"), (3, b"d=1")] {
        replicas
            .push(OpenHeight::open_with(alloc, number, tx)?)
            .ok()?;
    }
    Some(replicas)
}

// The mask of the replicas whose reports, as replica 0 has them, find [c=1].
fn finding(replicas: &[OpenHeight]) -> Option<u16> {
    let first = replicas.first()?;
    let value = value(first.alloc, b"c=1").ok()?;
    Some(first.instance.finds(&value))
}

// In the first phase only replica 2 names its value, so nobody can lock. By then all values are proper for all.
#[test]
fn four_different_proposals_are_found_by_all_in_the_second_phase(rt: HostRuntime) {
    let mut cluster = TestCluster::new(rt.alloc(), 4, 1).expect(&rt, "a cluster");
    let mut replicas = four_different(rt.alloc()).expect(&rt, "four replicas");
    for (round, counts, mask) in [
        (1, [1, 1, 1, 1], 4),
        (2, [0, 0, 0, 0], 4),
        (3, [0, 0, 0, 0], 4),
        (4, [0, 0, 0, 0], 4),
        (5, [1, 1, 1, 1], 15),
    ] {
        let are_sent = pass_round(&mut replicas, &mut cluster, counts);
        assert!(rt; are_sent == Some(true), "round {round}");
        assert!(rt; finding(&replicas) == Some(mask), "round {round}");
    }
}
