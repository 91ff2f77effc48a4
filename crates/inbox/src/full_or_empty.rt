//! Why no clause says that a refused `put` met a full inbox, or that `None` met an empty one.
ghost use Rattle.inbox.specs.Fits.{FitsFull, FitsEmpty, FitsAnItem};

/// What a pass put into an inbox agrees with a full inbox, which another pass filled, and with an empty one: a putting pass
/// doesn't know how many others there are. A refused [`put`](crate::Inbox::put) leaves the pass as it was.
pub fn putting_passes_fit_full_and_empty()
    ensures full { FitsFull }
    ensures empty { FitsEmpty }
{}

/// While a putting pass isn't handed back, whatever the taking pass knows of an empty inbox agrees with an inbox in which an
/// item of that pass waits. [`take`](crate::Inbox::take) leaves the taking pass as it was if it returns `None`.
pub fn taking_pass_fits_an_item()
    ensures { FitsAnItem }
{}
