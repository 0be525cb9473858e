//! The laws of a run's stream.
ghost use Rattle.std.specs.Prelude.{◌≡◌, ◌<◌, ◌≤◌, ◌^◌, ◌++◌, ℕ, true, All, IfSome, List, None, Ok, Option, length};
ghost use Rattle.fx_base.specs.declared.geometry.Rect.{Rect as Rectangle};
ghost use Rattle.fx_delta.specs.Pictures.{is_size};
ghost use Rattle.fx_delta.specs.Stream.{shown};
ghost use Rattle.fx_delta_runs.specs.Frames.{AreDrawn, AreLines, IsColor, IsProper, IsSent, Telling, tolds_in};
ghost use Rattle.fx_delta_runs.specs.Runs.{AreProper, AreShown, IsFirst, IsPlayedDrawn, IsRun, IsShownAs, in_form};
ghost use Rattle.fx_delta_runs.specs.Tame.{AreDrawable, AreNames, AreTameLines, IsTameWorld};
ghost use Rattle.fx_frame_text.specs.declared.forms.Form.{Form};
ghost use Rattle.fx_frame_text.specs.declared.forms.Form.TheVariants.{Delta, Text};
ghost use Rattle.fx_load.specs.Loading.{IsElaborated, Loaded};
ghost use Rattle.fx_load.specs.Telling.{warnings_of};
ghost use Rattle.fx_load_parts.specs.Files.{Run};
ghost use Rattle.fx_picture.specs.Pixels.{shapes_of};
ghost use Rattle.fx_picture.specs.Shapes.{color_of};
ghost use Rattle.fx_picture.specs.declared.entries.Entry.{Entry as Node};
ghost use Rattle.fx_picture.specs.declared.shapes.Shape.{Shape};
ghost use Rattle.fx_plain_frames.specs.Drawable.{ArePixels, IsDrawable};
ghost use Rattle.fx_plain_frames.specs.Games.{Game};
ghost use Rattle.fx_plain_frames.specs.Playing.{IsPlayed};
ghost use Rattle.fx_plain_runs.specs.Runs.{IsBegun, IsWritten};
ghost use Rattle.fx_plain_runs.specs.declared.manners.Manner.{Manner};
ghost use Rattle.fx_plain_steps.specs.Told.{Told, texts_of};
ghost use Rattle.fx_port.specs.Files.{Files};
ghost use Rattle.fx_pulse_model.specs.Frames.{Framed, IsFrame};
ghost use Rattle.fx_pulse_model.specs.Scenes.{IsScene, Scene};
ghost use Rattle.fx_scene_acts.specs.declared.tasks.Task.{Task};
ghost use Rattle.fx_script_commands.specs.Requests.{Numbered};
ghost use Rattle.fx_script_commands.specs.Scripts.{IsScript};

/// The pixels of a picture are of three bytes each where the channels of its colours are bytes.
pub fn bytes_make_pixels()
    ensures { (width height : ℕ) (picture : List Node) → All (λ (s : Shape). IsColor (color_of s)) (shapes_of picture)
        → ArePixels width height picture }
{}

/// The frame of a scene can be drawn where its size is one that a frame can have, and its pixels are of three bytes.
pub fn scenes_are_drawable()
    ensures { (scene : Scene) (window : Option (ℕ × ℕ)) (w h : ℕ) (rects : List Rectangle) (picture : List Node)
        → IsScene scene → IsFrame scene window w h rects picture → is_size w h ≡ true → ArePixels w h picture
        → IsDrawable (record { width = w; height = h; picture = picture }) }
{}

/// A frame that can be drawn is sent as a part of a stream, behind any other one or as the first: its changed rows make
/// its image of what is shown, and what is written of it as text is what a viewer writes then.
pub fn frames_are_sent()
    ensures { (number : ℕ) (last : Option Framed) (next : Framed) → 1 ≤ number → number < 2 ^ 64
        → IfSome last IsDrawable → IsDrawable next → IsSent number last next }
{}

/// Of frames that follow one another, with lines between them, a viewer of the changed rows shows the text.
pub fn streams_show_their_frames()
    ensures { (tellings : List Telling) → All IsProper tellings → length tellings < 2 ^ 64
        → shown (texts_of (tolds_in Delta 0 None tellings))
        ≡ record { bytes = texts_of (tolds_in Text 0 None tellings); bad = None } }
{}

/// What lines tell with frames in one form is what a run tells, which doesn't depend on the form.
pub fn runs_are_one()
    ensures { (form : Form) (first : Game) (lines : List Numbered) (tolds : List Told)
        → IsPlayed form first lines tolds
        → (tellings : List Telling) × (IsRun first lines tellings)
        × (tolds ≡ tolds_in form first.frames first.last tellings) }
{}

/// And a run tells it in each form.
pub fn runs_have_each_form()
    ensures { (form : Form) (first : Game) (lines : List Numbered) (tellings : List Telling)
        → IsRun first lines tellings → IsPlayed form first lines (tolds_in form first.frames first.last tellings) }
{}

/// Of each stream that a run writes from its beginning a viewer shows the text of the same run and finds no bad line,
/// where all that the lines may tell is proper.
pub fn streams_show_their_runs()
    ensures { (manner : Manner) (warnings : List ℕ) (first : Game) (lines : List Numbered) (stream : List ℕ)
        → IsFirst first → length lines < 2 ^ 64 → AreLines warnings → AreProper first lines
        → IsWritten (in_form Delta manner) warnings first lines stream
        → (text : List ℕ) × IsShownAs manner warnings first lines stream text }
{}

/// And each text that a run writes is shown of a stream that the same run writes.
pub fn runs_are_shown()
    ensures { (manner : Manner) (warnings : List ℕ) (first : Game) (lines : List Numbered) (text : List ℕ)
        → IsFirst first → length lines < 2 ^ 64 → AreLines warnings → AreProper first lines
        → IsWritten (in_form Text manner) warnings first lines text
        → (stream : List ℕ) × (IsWritten (in_form Delta manner) warnings first lines stream)
        × (shown stream ≡ record { bytes = text; bad = None }) }
{}

/// All that lines tell is proper where each frame can be drawn, and no text that a line says and no path that is
/// printed holds a line feed: what they print beside frames is whole lines then, and none is taken for a frame's.
pub fn tame_lines_are_proper()
    ensures { (first : Game) (lines : List Numbered) → IsTameWorld first.world → AreTameLines lines
        → AreDrawable first lines → AreProper first lines }
{}

/// A game of a scene begins before its first frame, in a world without a listener or an action.
pub fn begun_games_are_tame()
    ensures { (window : Option (ℕ × ℕ)) (tasks : List Task) (first : Game) → IsBegun window tasks first
        → (IsFirst first) × (IsTameWorld first.world) }
{}

/// One run of tame lines from its beginning, whose frames could all be drawn: it writes a stream and a text, and of the
/// stream a viewer shows just the text.
pub fn drawn_runs_are_shown()
    ensures { (manner : Manner) (warnings : List ℕ) (first : Game) (lines : List Numbered) (tellings : List Telling)
        → IsFirst first → IsTameWorld first.world → length lines < 2 ^ 64 → AreTameLines lines → AreLines warnings
        → IsRun first lines tellings → AreDrawn tellings → AreShown manner warnings first lines tellings }
{}

/// Whoever goes along its lines, and sees that the last frame behind each of them can be drawn, has told such a run.
pub fn plays_are_drawn_runs()
    ensures { (form : Form) (first : Game) (lines : List Numbered) (tolds : List Told)
        → IsPlayedDrawn form first lines tolds
        → (tellings : List Telling) × (IsRun first lines tellings)
        × (tolds ≡ tolds_in form first.frames first.last tellings) × AreDrawn tellings }
{}

/// The lines of a script are tame, since it is cut at its line feeds, and nothing in a line stands for one.
pub fn scripts_are_tame()
    ensures { (bytes : List ℕ) (lines : List Numbered) → IsScript bytes lines → AreTameLines lines }
{}

/// What is told of what was dropped of sheets is whole lines, where no name of a file holds a line feed.
pub fn warnings_are_lines()
    ensures { (names : List (List ℕ)) (tasks : List Task) → AreNames names → AreLines (warnings_of names tasks) }
{}

/// Of a run over files, of which no name holds a line feed, a viewer shows the text of the run and finds no bad line,
/// where the frames that it drew could be drawn.
pub fn runs_over_files_are_shown()
    ensures { (run : Run) (files : Files) (loaded : Loaded) (manner : Manner) (first : Game) (tellings : List Telling)
        → IsElaborated run files (Ok loaded) → AreNames loaded.files → IsBegun manner.window loaded.tasks first
        → IsRun first loaded.lines tellings → AreDrawn tellings
        → AreShown manner loaded.warnings first loaded.lines tellings }
{}

/// And of what a player of such a run told with changed rows a viewer shows the text of the same run.
pub fn plays_over_files_are_shown()
    ensures { (run : Run) (files : Files) (loaded : Loaded) (manner : Manner) (first : Game) (tolds : List Told)
        → IsElaborated run files (Ok loaded) → AreNames loaded.files → IsBegun manner.window loaded.tasks first
        → IsPlayedDrawn Delta first loaded.lines tolds
        → (text : List ℕ)
        × IsShownAs manner loaded.warnings first loaded.lines (loaded.warnings ++ texts_of tolds) text }
{}

/// Of every stream that such a run writes a viewer shows the text of the same run, for each frame of it can be drawn.
pub fn streams_of_files_show_their_runs()
    ensures { (run : Run) (files : Files) (loaded : Loaded) (manner : Manner) (first : Game) (stream : List ℕ)
        → IsElaborated run files (Ok loaded) → AreNames loaded.files → IsBegun manner.window loaded.tasks first
        → IsWritten (in_form Delta manner) loaded.warnings first loaded.lines stream
        → (text : List ℕ) × IsShownAs manner loaded.warnings first loaded.lines stream text }
{}
