//! The paths that are answered.
ghost use Rattle.std.specs.Prelude.{◌≡◌};
ghost use Rattle.http_messages.specs.Endpoints.{endpoint_of};

/// A path that is answered.
#[derive(Clone, Copy)]
pub(crate) enum Endpoint {
    Page,
    Health,
    Status,
    AbciInfo,
    AbciQuery,
    Block,
    UnconfirmedTxs,
    BroadcastSync,
    BroadcastCommit,
    Metrics,
}

/// The endpoint that the text is the path of.
#[tactic(auto, unfolding(crate::specs::Endpoints::endpoint_of))]
fn endpoint_named(path: &str) -> Option<Endpoint>
    ensures { result ≡ endpoint_of path.now }
{
    match path {
        "/" => Some(Endpoint::Page),
        "/health" => Some(Endpoint::Health),
        "/status" => Some(Endpoint::Status),
        "/abci_info" => Some(Endpoint::AbciInfo),
        "/abci_query" => Some(Endpoint::AbciQuery),
        "/block" => Some(Endpoint::Block),
        "/num_unconfirmed_txs" => Some(Endpoint::UnconfirmedTxs),
        "/broadcast_tx_sync" => Some(Endpoint::BroadcastSync),
        "/broadcast_tx_commit" => Some(Endpoint::BroadcastCommit),
        "/metrics" => Some(Endpoint::Metrics),
        _ => None,
    }
}

/// The endpoint that the bytes are the path of.
pub(crate) fn endpoint_of(path: &[u8]) -> Option<Endpoint>
    ensures { result ≡ endpoint_of path.now }
{
    match str::from_utf8(path) {
        Ok(path) => endpoint_named(path),
        Err(_) => None,
    }
}
