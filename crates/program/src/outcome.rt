//! How far the program came by itself.
ghost use Rattle.std.specs.Prelude.{◌≡◌, None, MatchResult};
ghost use Rattle.program.specs.Doing.{IsHanded, settings_of};

use cluster_setup::{
    AuditSettings, ClusterSeed, ClusterSettings, DeliverSettings, DrawSettings, ServeSettings,
    Settings, SignSettings, SimulateSettings,
};

/// How far the program came with what its words ask for.
#[derive(Drop)]
pub enum Outcome {
    /// It did all that it could; this is the exit status.
    Ended(u8),
    /// The words ask for a running cluster, which takes threads; nothing was done yet.
    Cluster(ClusterSettings),
    /// The words ask for a running cluster with clients; nothing was done yet.
    Serve(ServeSettings),
}

/// What a subcommand that did all that it could concludes with.
#[derive(Drop)]
pub struct Conclusion {
    /// The exit status.
    pub status: u8,
    /// A sentence for standard error about what an audit or a picture found wrong with histories.
    pub explanation: Option<String>,
}

impl Conclusion {
    /// A conclusion with this exit status and nothing to explain.
    pub(crate) fn plain(status: u8) -> Self
        ensures status { result.status ≡ status }
        ensures none { result.explanation ≡ None }
    {
        Conclusion {
            status,
            explanation: None,
        }
    }
}

/// The subcommands that need only the streams of the program.
#[derive(Drop)]
pub(crate) enum Piped {
    Sign(SignSettings),
    Deliver(DeliverSettings),
    Simulate(SimulateSettings),
    Audit(AuditSettings),
    Draw(DrawSettings),
    Keys(ClusterSeed),
}

impl Piped {
    /// The settings, if they need only streams; otherwise the outcome that returns them to the caller.
    pub(crate) fn of(settings: Settings) -> Result<Piped, Outcome>
        ensures { MatchResult result (λ piped. settings_of piped ≡ settings) (λ outcome. IsHanded settings outcome) }
    {
        match settings {
            Settings::Sign(settings) => Ok(Piped::Sign(settings)),
            Settings::Deliver(settings) => Ok(Piped::Deliver(settings)),
            Settings::Simulate(settings) => Ok(Piped::Simulate(settings)),
            Settings::Audit(settings) => Ok(Piped::Audit(settings)),
            Settings::Draw(settings) => Ok(Piped::Draw(settings)),
            Settings::Keys(cluster) => Ok(Piped::Keys(cluster)),
            Settings::Cluster(settings) => Err(Outcome::Cluster(settings)),
            Settings::Serve(settings) => Err(Outcome::Serve(settings)),
        }
    }
}
