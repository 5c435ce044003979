//! The program.
ghost use Rattle.std.specs.Prelude.{◌≡◌, ◌⊎◌, ℕ};
ghost use Rattle.std.specs.Process.{exit_status};
ghost use Rattle.command_answer.specs.Answer.{IsFailure};
ghost use Rattle.command_answer.specs.declared.status.TheConstants.{READ_FAULT, USAGE};
ghost use Rattle.command_line.specs.Arguments.{AsksToRead, IsUsage, texts};

use command_answer::NO_MEMORY;
use host_environment::{HostFolder, HostOut, given_arguments};
use std::process::{ExitCode, Termination};
use std::sync::Wait;
use std::thread::{Builder, Threads};
use sw_base::NoGate;
use top_call::{STACK, sword};

/// What the system is handed as the status.
fn exit_code(status: u8) -> ExitCode
    ensures { exit_status result ≡ status }
{
    ExitCode::from(status)
}

/// Does what the arguments ask for on the host's files and output, and ends with the status of that. Threads are started by the first
/// runtime.
fn answer<R: Threads + Wait + Sync + Copy + Send + 'static>(
    threads: &R,
    rt: HostRuntime,
    arguments: &[String],
) -> ExitCode
    ensures usage { IsUsage (texts arguments.now) → (exit_status result ≡ USAGE) ⊎ IsFailure (exit_status result) }
    ensures only_usage { exit_status result ≡ USAGE → IsUsage (texts arguments.now) }
    ensures only_reads { exit_status result ≡ READ_FAULT → AsksToRead (texts arguments.now) }
{
    let mut folder = HostFolder::new(rt);
    let mut out = HostOut::new(rt);
    exit_code(sword(
        threads,
        rt.alloc(),
        arguments,
        &mut folder,
        &mut out,
        &NoGate,
    ))
}

fn work<R: Threads + Wait + Sync + Copy + Send + 'static>(
    threads: &R,
    rt: HostRuntime,
) -> ExitCode {
    match given_arguments(&rt) {
        Ok(arguments) => answer(threads, rt, &arguments),
        Err(_) => exit_code(NO_MEMORY),
    }
}

/// How the program ended, which only its run makes. It can't be let go, so a `main` that runs the program ends with this status.
pub struct Ended {
    status: ExitCode,
}

impl Termination for Ended {
    fn report<R: Eprint>(self, _rt: &R) -> ExitCode {
        let Ended { status } = self;
        status
    }
}

/// The whole program, on a stack of its own, or on this one where no thread can be started. Threads are started by the first runtime.
pub fn run<R: Threads + Wait + Copy + Send + Sync + 'static>(threads: R, rt: HostRuntime) -> Ended {
    let status = match Builder::new()
        .stack_size(STACK)
        .spawn(&threads, move || work(&threads, rt))
    {
        Ok(thread) => thread.join(&threads),
        Err(_) => work(&threads, rt),
    };
    Ended { status }
}
