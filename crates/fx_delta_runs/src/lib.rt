//! What a viewer shows of a run's stream: the law that the changed rows of a run are shown as the text of the same run.
//! It stands beside the programs, above the definitions of what a run writes and the law of a view and a viewer.
#![tactic(auto)]

mod laws;

pub use laws::{
    begun_games_are_tame, bytes_make_pixels, drawn_runs_are_shown, frames_are_sent,
    plays_are_drawn_runs, plays_over_files_are_shown, runs_are_one, runs_are_shown,
    runs_have_each_form, runs_over_files_are_shown, scenes_are_drawable, scripts_are_tame,
    streams_of_files_show_their_runs, streams_show_their_frames, streams_show_their_runs,
    tame_lines_are_proper, warnings_are_lines,
};
