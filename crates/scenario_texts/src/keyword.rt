//! The keywords, with which lines start.
ghost use Rattle.std.specs.Prelude.{◌≡◌};
ghost use Rattle.scenario_texts.specs.Words.{keyword_text};
ghost use Rattle.scenario_texts.specs.Reading.{keyword_of};

/// The keyword of a line.
#[derive(Clone, Copy, Debug, PartialEq, Eq)]
pub(crate) enum Keyword {
    Config,
    Keys,
    Frames,
    Liar,
    Submit,
    Propose,
    End,
    Pass,
    Inject,
    Execute,
    Query,
    Retire,
    Info,
    Silent,
    Round,
    LieReport,
    LieLock,
    LieStale,
    LieAck,
}

/// The keyword that the word is, if it is one.
#[tactic(auto, unfolding(crate::specs::Reading::keyword_of))]
pub(crate) fn keyword_of(word: &str) -> Option<Keyword>
    ensures { result ≡ keyword_of word.now }
{
    match word {
        "config" => Some(Keyword::Config),
        "keys" => Some(Keyword::Keys),
        "frames" => Some(Keyword::Frames),
        "liar" => Some(Keyword::Liar),
        "submit" => Some(Keyword::Submit),
        "propose" => Some(Keyword::Propose),
        "end" => Some(Keyword::End),
        "pass" => Some(Keyword::Pass),
        "inject" => Some(Keyword::Inject),
        "execute" => Some(Keyword::Execute),
        "query" => Some(Keyword::Query),
        "retire" => Some(Keyword::Retire),
        "info" => Some(Keyword::Info),
        "silent" => Some(Keyword::Silent),
        "round" => Some(Keyword::Round),
        "lie-report" => Some(Keyword::LieReport),
        "lie-lock" => Some(Keyword::LieLock),
        "lie-stale" => Some(Keyword::LieStale),
        "lie-ack" => Some(Keyword::LieAck),
        _ => None,
    }
}
