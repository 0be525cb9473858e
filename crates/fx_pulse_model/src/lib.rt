//! The frame of a scene from nothing: its looks, its layout, its picture, and what the picture damages of the last one.
//! What draws scenes frame by frame stands above it.
#![tactic(auto)]

ghost use Rattle.fx_pulse_model.specs.Frames.{IsInItsWindow, OneFrame};

/// A scene has one frame in a window.
pub fn one_frame()
    ensures { OneFrame }
{}

/// The frame of a scene without a window is its frame in the window that has its size.
pub fn in_its_window()
    ensures { IsInItsWindow }
{}
