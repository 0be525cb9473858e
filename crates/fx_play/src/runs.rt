//! Playing a run over files.
ghost use Rattle.std.specs.Prelude.{◌≡◌, ◌≤◌, Some, vec_len};
ghost use Rattle.fx_load.specs.Loads.{loaded_of};
ghost use Rattle.fx_load_parts.specs.Views.{run_of};
ghost use Rattle.fx_plain.specs.CommandLine.{Plays};
ghost use Rattle.fx_plain.specs.Demos.{demo_files, demo_run};
ghost use Rattle.fx_plain.specs.Works.{HasWorked, IsLoadedWork, IsRunWork};
ghost use Rattle.fx_plain.specs.declared.answers.Status.TheVariants.{Done};
ghost use Rattle.fx_plain_work.specs.Works.{counted};
ghost use Rattle.fx_port.specs.Files.{Files};
ghost use Rattle.fx_play.specs.Ends.{IsDemoPlayed, IsIdle, IsLoadedPlayed, IsPlayed};

use crate::demos::{DEMO_SCENE, DEMO_SCRIPT, DEMO_SHEET, DemoShelf};
use crate::endings::ended;
use crate::faults::{tell_unloaded, tell_unstaged};
use fx_base::{Ledgers, Str, Work};
use fx_load::{Loaded, load};
use fx_load_parts::Run;
use fx_plain::Status;
use fx_plain_runs::Manner;
use fx_play_runs::{put_played, staged};
use fx_port::{Shelf, Sink};
use std::alloc::Global;
use std::mem;

/// Plays the demo of so many labels. Its files are made; none is fetched.
pub(crate) fn play_demo<O: Sink, L: Ledgers>(
    alloc: Global,
    number: u32,
    manner: Manner,
    out: &mut O,
    work: &mut Work<L>,
) -> Status
    requires some { 1 ≤ number }
    requires most { number ≤ 3600 }
    ensures played { IsDemoPlayed number manner (O.faults out.old) (O.faults out.new) (O.written out.old)
        (O.written out.new) result }
    ensures idle { IsIdle result → work.new ≡ work.old }
    ensures work { result ≡ Done → HasWorked (λ bytes. IsRunWork demo_run manner (demo_files number) bytes
        (counted work.old.styled work.old.laid work.old.painted)
        (counted work.new.styled work.new.laid work.new.painted))
        (O.written out.old) (O.written out.new) work.old.evaluated work.new.evaluated }
{
    let Ok(mut shelf) = DemoShelf::new(alloc, number) else {
        return Status::NoMemory;
    };
    let Ok(sheet) = String::from_str(alloc, DEMO_SHEET) else {
        return Status::NoMemory;
    };
    let sheets = [Str::from_string(sheet)];
    let run = Run {
        scene: DEMO_SCENE,
        script: DEMO_SCRIPT,
        sheets: &sheets,
    };
    play_run(alloc, &run, manner, &mut shelf, out, work)
}

/// Plays a run over files.
pub(crate) fn play_run<F: Shelf, O: Sink, L: Ledgers>(
    alloc: Global,
    run: &Run<'_>,
    manner: Manner,
    shelf: &mut F,
    out: &mut O,
    work: &mut Work<L>,
) -> Status
    ensures held { F.held shelf.new ≡ F.held shelf.old }
    ensures played { IsPlayed (Plays (run_of run.now) manner) (F.held shelf.old) (F.faults shelf.old)
        (F.faults shelf.new) (O.faults out.old) (O.faults out.new) (O.written out.old) (O.written out.new) result }
    ensures idle { IsIdle result → work.new ≡ work.old }
    ensures work { (files : Files) → F.held shelf.old ≡ Some files → result ≡ Done →
        HasWorked (λ bytes. IsRunWork (run_of run.now) manner files bytes
        (counted work.old.styled work.old.laid work.old.painted)
        (counted work.new.styled work.new.laid work.new.painted))
        (O.written out.old) (O.written out.new) work.old.evaluated work.new.evaluated }
{
    let loaded = match load(alloc, run, shelf) {
        Ok(loaded) => loaded,
        Err(error) => return tell_unloaded(alloc, error, out),
    };
    play_loaded(alloc, manner, loaded, out, work)
}

/// Plays a run whose files are loaded. Its scene isn't taken apart behind it: the process ends with its run, and takes
/// the memory back at once.
fn play_loaded<O: Sink, L: Ledgers>(
    alloc: Global,
    manner: Manner,
    loaded: Loaded,
    out: &mut O,
    work: &mut Work<L>,
) -> Status
    requires few { vec_len loaded.lines ≤ 100000 }
    ensures played { IsLoadedPlayed manner (loaded_of loaded) (O.faults out.old) (O.faults out.new)
        (O.written out.old) (O.written out.new) result }
    ensures work { result ≡ Done → HasWorked (λ bytes. IsLoadedWork manner (loaded_of loaded) bytes
        (counted work.old.styled work.old.laid work.old.painted)
        (counted work.new.styled work.new.laid work.new.painted))
        (O.written out.old) (O.written out.new) work.old.evaluated work.new.evaluated }
{
    let Loaded {
        tasks,
        files,
        lines,
        warnings,
    } = loaded;
    let mut game = match staged(alloc, manner.window, tasks, work) {
        Ok(game) => game,
        Err(error) => return tell_unstaged(alloc, files.as_slice(), error, out),
    };
    let status = ended(
        put_played(
            alloc,
            manner,
            &mut game,
            warnings.as_slice(),
            lines,
            out,
            work,
        ),
        Status::Done,
    );
    mem::forget(game);
    status
}
