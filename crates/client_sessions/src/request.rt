//! The requests of a client.
ghost use Rattle.std.specs.Prelude.{◌≡◌};
ghost use Rattle.ledger_model.specs.Sessions.{request_of};
ghost use Rattle.client_sessions.specs.Requests.{asked_for};

use ledger_model::{Height, Key, ReplicaId};

/// A request; each variant shows the body that encodes it.
pub(crate) enum Request<'a> {
    /// `01 tx`: a transaction for the pool.
    Submit(&'a [u8]),
    /// `02 min_height key`: what the application has under a key, at that height or a later one.
    Query { min_height: u32, key: &'a [u8] },
    /// `03`: the committed height.
    Height,
    /// `04 height`: the batch of the block at this height.
    Block(Height),
    /// `05 replica`: talk to another replica from now on.
    Switch(ReplicaId),
    /// The body encodes no request.
    Malformed,
}

impl<'a> Request<'a> {
    /// The request that the body encodes.
    pub(crate) fn parse(body: &'a [u8]) -> Self
        ensures { asked_for result ≡ request_of body.now }
    {
        match body {
            [1, tx @ ..] => Request::Submit(tx),
            [2, a, b, c, d, key @ ..] if key.len() <= Key::MAX_LEN => Request::Query {
                min_height: u32::from_be_bytes([*a, *b, *c, *d]),
                key,
            },
            [3] => Request::Height,
            [4, a, b, c, d] => { Request::Block(Height::new(u32::from_be_bytes([*a, *b, *c, *d]))) }
            [5, replica] => Request::Switch(ReplicaId::new(*replica)),
            _ => Request::Malformed,
        }
    }
}
