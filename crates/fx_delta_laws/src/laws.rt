//! The law of streams.
ghost use Rattle.std.specs.Prelude.{◌≡◌, All, List, None};
ghost use Rattle.fx_delta.specs.Pictures.{no_picture};
ghost use Rattle.fx_delta.specs.Stream.{shown};
ghost use Rattle.fx_delta_laws.specs.Streams.{IsPart, Part, frames_of, stream_of};

/// Of a stream that a view wrote, line by line and frame by frame, a viewer shows each line as it is and each frame's
/// picture as the view has it, and finds no bad line.
pub fn viewers_show_the_frames_of_the_view()
    ensures { (parts : List Part) → All IsPart parts
        → shown (stream_of no_picture parts) ≡ record { bytes = frames_of no_picture parts; bad = None } }
{}
