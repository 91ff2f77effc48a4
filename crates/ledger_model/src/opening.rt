//! Which replies open a round.
ghost use Rattle.std.specs.Prelude.{◌≡◌};
ghost use Rattle.ledger_model.specs.Lawful.{is_opened};

use crate::Reply;

/// Whether a reply opens a round.
pub fn is_opened(reply: &Reply) -> bool
    ensures { result ≡ is_opened reply.now }
{
    matches!(reply, Reply::RoundEnded(Ok(_)))
}
