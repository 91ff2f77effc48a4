//! What liars sign.
ghost use Rattle.std.specs.Prelude.{◌≡◌, ◌≤◌, None, length, IfSome, IfNone, IfOk};
ghost use Rattle.ledger_model.specs.Limits.{max_signature_len};
ghost use Rattle.adversary_net.specs.WorldViews.{liar_in, LiarSigns};

use crate::correct::CorrectReplica;
use crate::party::Party;
use crate::world::World;
use abci::Application;
use key_ring::SignFault;
use ledger_model::ReplicaId;
use std::alloc::Global;

/// The signature of a message, if the party is a liar.
fn signature_of<A: Application>(
    alloc: Global,
    party: &mut Party<CorrectReplica<A>>,
    message: &[u8],
) -> Option<Result<Vec<u8>, SignFault>>
    ensures signs { IfSome result (λ answer. LiarSigns (λ signature. signature.items) party.old message.now answer party.new) }
    ensures short { IfSome result (λ answer. IfOk answer (λ signature. length signature.items ≤ max_signature_len)) }
    ensures none { IfNone result (liar_in party.old ≡ None) }
    ensures same { IfNone result (party.new ≡ party.old) }
{
    match party {
        Party::Liar(signer) => Some(signer.sign(alloc, message)),
        Party::Correct(_) => None,
    }
}

impl<A: Application> World<A> {
    ghost use Rattle.adversary_net.specs.WorldViews.{liar_at, SignsFor};

    /// Signs a message for a liar, with the next leaf of its key pair; `None` if the number is no liar's. Changes
    /// nothing else: a lie reaches a replica only by a step.
    ///
    /// `Exhausted` comes exactly if no leaf is left. After `NoMemory` the leaf is used up.
    pub fn sign_as(&mut self, liar: ReplicaId, message: &[u8]) -> Option<Result<Vec<u8>, SignFault>>
        ensures signs { IfSome result (λ answer. SignsFor (λ signature. signature.items) self.old liar message.now answer self.new) }
        ensures short { IfSome result (λ answer. IfOk answer (λ signature. length signature.items ≤ max_signature_len)) }
        ensures none { IfNone result (liar_at self.old liar ≡ None) }
        ensures same { IfNone result (self.new ≡ self.old) }
    {
        let place = usize::from(liar.number());
        if place >= self.parties.len() {
            return None;
        }
        let alloc = *self.order.allocator();
        signature_of(alloc, &mut self.parties[place], message)
    }
}
