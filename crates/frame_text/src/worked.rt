//! Worked cases that hold the definitions of texts against what readers see.
ghost use Rattle.frame_text.specs.Worked as worked;

/// Frames and refusals are written as in the worked cases.
pub fn texts_are_as_worked()
    ensures watched { worked.WatchedFrame }
    ensures rows { worked.RowsFrame }
    ensures waiting { worked.WaitingFrame }
    ensures stopped { worked.StoppedFrame }
    ensures refusals { worked.RefusalLines }
    ensures faults { worked.FaultLines }
{}
