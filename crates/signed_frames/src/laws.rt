//! Laws of what readers return.

ghost use Rattle.signed_frames.specs.Cuts.{FramesHoweverCut, SameHoweverCut};

/// However a stream is cut into pieces, a reader returns the same frames, and finds the same fault, unless memory runs out.
pub fn however_cut()
    // Two pieces, one after the other, give the same frames as the joined piece.
    ensures joined { FramesHoweverCut }
    // Any two lists of pieces that are the same bytes give the same frames and the same fault.
    ensures same { SameHoweverCut }
{}
