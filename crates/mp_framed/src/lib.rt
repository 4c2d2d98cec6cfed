//! The laws of frames, each on a function with an empty body.
#![tactic(auto)]

ghost use Rattle.mp_framed.specs.Cases.{FramedCase};
ghost use Rattle.mp_framed.specs.Controls.{NotFrameBoundTwoLower, NotTwiceLostBound};
ghost use Rattle.mp_framed.specs.Frames.{FrameNetworkLaw, NextPartLaw, FrameServedLaw, FrameDriftLaw, FrameKeptLaw, FrameQueueLaw, FrameBoundLaw};

/// The frame network is a network, so certificates and verdicts speak of it as of any other.
pub fn frame_network_law()
    ensures { FrameNetworkLaw }
{}

/// A further period of a frame adds to what passed in it: at most one period is lost, so a chosen
/// movement passes what its flow lets pass in all periods but one, or all that stood there at first.
pub fn next_part_law()
    ensures { NextPartLaw }
{}

/// How little what passes in a frame falls short of the capacity in all its periods but one.
pub fn frame_served_law()
    ensures { FrameServedLaw }
{}

/// The drift of a frame (Tassiulas and Ephremides 1992, over F periods), under a certificate of the
/// frame network.
pub fn frame_drift_law()
    ensures { FrameDriftLaw }
{}

/// A frame keeps the drift value at its beginning at most its greatest.
pub fn frame_kept_law()
    ensures { FrameKeptLaw }
{}

/// So no queue is above its bound, also within a frame.
pub fn frame_queue_law()
    ensures { FrameQueueLaw }
{}

/// No queue of a framed run over permitted arrivals of any length exceeds its bound.
pub fn frame_bound_law()
    ensures { FrameBoundLaw }
{}

/// Two approaches with queues at the start meet the premises, by frames of three periods.
pub fn framed_case()
    ensures { FramedCase }
{}

/// Not each queue stays at least 2 below its bound. Whether each stays 1 below is not known.
pub fn frame_bound_two_lower_control()
    ensures { NotFrameBoundTwoLower }
{}

/// The bound is one for a lost period: where a change loses two it does not hold.
pub fn twice_lost_control()
    ensures { NotTwiceLostBound }
{}
