//! What the words of a command ask for.
ghost use Rattle.std.specs.Prelude.{◌≡◌, map, string_bytes};
ghost use Rattle.iomap_replay.specs.Tasks.{task_of as task_said};

/// What a replay is to do.
#[derive(Clone, Copy)]
pub enum Task {
    /// To run the script, and print its run.
    Run,
    /// To say whether it is a script, and run nothing.
    Check,
}

/// What the words ask for: to run where there is none, to check where there is the one word `--check`,
/// and `None` for all others.
pub fn task_of(words: &[String]) -> Option<Task>
    ensures { result ≡ task_said (map string_bytes words.now) }
{
    match words {
        [] => Some(Task::Run),
        [word] => {
            if word.as_bytes() == b"--check".as_slice() {
                return Some(Task::Check);
            }
            None
        }
        _ => None,
    }
}
