//! What a view writes and a viewer shows, together: the law that a viewer of a stream shows exactly the frames of the
//! view that wrote it. It stands beside the programs, above the view and the viewer.
#![tactic(auto)]

mod laws;

pub use laws::viewers_show_the_frames_of_the_view;
