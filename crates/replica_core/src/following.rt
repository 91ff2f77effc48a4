//! One entry of another replica's history: whether its reply is lawful, and the core state after it.
use crate::closings::make_nothing;
use crate::comparing::{
    is_same_delivered, is_same_executed, is_same_frames, is_same_proposed, is_same_queried,
    is_same_retired, is_same_submitted,
};
use crate::replay::Replay;
use crate::shown_frames::{make_shown, read_frames, send_locks};
use abci::Application;
use height_row::RoundClosing;
use instance::RoundEffects;
use ledger_model::{Event, LastRound, Reply, RoundEnded, Sent};
use std::alloc::{AllocError, Global};

impl<A: Application> Replay<A> {
    ghost use Rattle.std.specs.Prelude.{◌≡◌, ◌<◌, ◌+◌, map, true, false, IfOk, IfSome, MatchOption, OnErr, Ok};
    ghost use Rattle.std.specs.List.{AllByRecursion};
    ghost use Rattle.ledger_model.specs.declared.event.Event.TheVariants as event;
    ghost use Rattle.ledger_model.specs.declared.reply.Reply.TheVariants as reply;
    ghost use Rattle.ledger_model.specs.Limits.{last_round};
    ghost use Rattle.instance.specs.Plans.{opened_effects};
    ghost use Rattle.replica_core.specs.Replays.{IsWithinLimits};
    ghost use Rattle.replica_core.specs.Steps.{gives_up};
    ghost use Rattle.replica_core.specs.Following.{IsFollowed, IsSameReplay};
    ghost use Rattle.replica_core.specs.ShownEnds.{sends_locks_on, IsShown, KeepsNone};

    /// How each open height closes its round according to the frames, if the replica is not mute and sends no locks on.
    /// Returns `None` if some height may not make what its frame contains.
    fn read_end(
        &self,
        alloc: Global,
        endings: Vec<RoundEffects>,
        end: &RoundEnded,
    ) -> Result<Option<Vec<RoundClosing>>, AllocError>
        requires clock { self.now.clock < last_round }
        requires limits { IsWithinLimits self.now }
        requires endings { endings.items ≡ map (λ row. opened_effects row (self.now.clock + 1)) self.now.rows }
        requires loud { end.now.mute ≡ false }
        requires none_on { sends_locks_on (self.now.clock + 1) self.now.rows ≡ false }
        ensures shown { IfOk result (λ o. MatchOption o (KeepsNone A.meaning self.now end.now)
            (λ closings. IsShown A.meaning self.now end.now (map (λ c. c.made) closings.items))) }
        ensures endings { IfOk result (λ o. IfSome o (λ closings. map (λ c. c.ending) closings.items ≡ map (λ row. opened_effects row (self.now.clock + 1)) self.now.rows)) }
    {
        let Some(frames) = read_frames(alloc, end.frames.as_slice())? else {
            return Ok(None);
        };
        let closings = make_shown(alloc, self.rows.instances(), endings, frames)?;
        if self.may_make_all(&closings) {
            Ok(Some(closings))
        } else {
            Ok(None)
        }
    }

    /// How each open height closes its round according to the frames of the round end; `None` if some height may not
    /// make what its frame contains.
    fn shown_end(
        &self,
        alloc: Global,
        endings: Vec<RoundEffects>,
        end: &RoundEnded,
    ) -> Result<Option<Vec<RoundClosing>>, AllocError>
        requires clock { self.now.clock < last_round }
        requires limits { IsWithinLimits self.now }
        requires endings { endings.items ≡ map (λ row. opened_effects row (self.now.clock + 1)) self.now.rows }
        ensures shown { IfOk result (λ o. MatchOption o (KeepsNone A.meaning self.now end.now)
            (λ closings. IsShown A.meaning self.now end.now (map (λ c. c.made) closings.items))) }
        ensures endings { IfOk result (λ o. IfSome o (λ closings. map (λ c. c.ending) closings.items ≡ map (λ row. opened_effects row (self.now.clock + 1)) self.now.rows)) }
    {
        if end.mute {
            Ok(Some(make_nothing(alloc, endings, true)?))
        } else if send_locks(&endings) {
            Ok(Some(make_nothing(alloc, endings, false)?))
        } else {
            self.read_end(alloc, endings, end)
        }
    }

    /// False exactly if the replica was mute and its reply says that it is not.
    fn stays_mute(&self, ended: &RoundEnded) -> bool
        ensures stays { result ≡ true → self.now.mute ≡ true → ended.now.mute ≡ true }
        ensures was { result ≡ false → self.now.mute ≡ true }
        ensures says { result ≡ false → ended.now.mute ≡ false }
    {
        !self.is_mute() || ended.mute
    }

    /// Follows the end of a round that is not the last one.
    fn follow_round(&mut self, alloc: Global, ended: &RoundEnded) -> Result<bool, AllocError>
        requires clock { self.old.clock < last_round }
        ensures followed { IfOk result (λ kept. IsFollowed A.meaning self.old event.RoundEnd
            (reply.RoundEnded (Ok ended.now)) kept self.new) }
        ensures same { IsSameReplay self.old self.new }
        ensures err { OnErr result (self.new ≡ self.old) }
    {
        if !self.stays_mute(ended) {
            return Ok(false);
        }
        let endings = self.prepare_ends(alloc)?;
        let Some(closings) = self.shown_end(alloc, endings, ended)? else {
            return Ok(false);
        };
        let prepared = self.prepare_round(alloc, closings, ended.mute)?;
        let due = self.finish_round(prepared);
        Ok(is_same_frames(due.frames.as_slice(), ended.frames.as_slice()))
    }

    /// Follows the end of a round.
    fn follow_end(
        &mut self,
        alloc: Global,
        shown: &Result<RoundEnded, LastRound>,
    ) -> Result<bool, AllocError>
        ensures followed { IfOk result (λ kept. IsFollowed A.meaning self.old event.RoundEnd (reply.RoundEnded shown.now) kept self.new) }
        ensures same { IsSameReplay self.old self.new }
        ensures err { OnErr result (self.new ≡ self.old) }
    {
        match shown {
            Err(_) => Ok(self.is_over()),
            Ok(ended) => {
                if self.is_over() {
                    return Ok(false);
                }
                self.follow_round(alloc, ended)
            }
        }
    }

    /// Takes one entry, and returns whether its reply is lawful after the entries before it, and everything that it sends is signed. If it
    /// returns true, the replay then matches the history with this entry. If it returns false, no clause says which history the replay
    /// matches: a caller must not use it further.
    ///
    /// The only error is allocation failure, and then nothing changed. An event that gives heights up needs no memory.
    pub fn follow(
        &mut self,
        alloc: Global,
        event: &Event,
        reply: &Reply,
    ) -> Result<bool, AllocError>
        ensures followed { IfOk result (λ kept. IsFollowed A.meaning self.old event.now reply.now kept self.new) }
        ensures same { IsSameReplay self.old self.new }
        ensures err { OnErr result (self.new ≡ self.old) }
        ensures free { OnErr result (gives_up event.now ≡ false) }
    {
        match (event, reply) {
            (Event::Submit(bytes), Reply::Submitted(shown)) => {
                Ok(is_same_submitted(&self.submit(bytes)?, shown))
            }
            (Event::Propose(height), Reply::Proposed(shown)) => {
                Ok(is_same_proposed(&self.propose(alloc, *height)?, shown))
            }
            (Event::Deliver(bytes), Reply::Delivered(shown)) => {
                Ok(is_same_delivered(&self.deliver(alloc, bytes)?, shown))
            }
            (Event::RoundEnd, Reply::RoundEnded(shown)) => self.follow_end(alloc, shown),
            (Event::Execute, Reply::Executed(shown)) => {
                Ok(is_same_executed(&self.execute(alloc)?, shown))
            }
            (Event::Query(key, height), Reply::Queried(shown)) => {
                let due = self.query(key.as_bytes(), height.number())?;
                Ok(is_same_queried(&due, shown))
            }
            (Event::Retire(floor), Reply::Retired(shown)) => {
                Ok(is_same_retired(&self.retire(*floor), shown))
            }
            _ => Ok(false),
        }
    }
}
