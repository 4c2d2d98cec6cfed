// What a frame lets pass, as flags.
ghost use Rattle.mp_frame.specs.Flags.{FrameFlagsLaw};

/// A period of a frame is one with the flags of the movements that may pass in it.
pub fn frame_flags_law()
    ensures { FrameFlagsLaw }
{}
