//! That the number of items after which a walk is dropped is one of 64 bits, as each number is that is read.
ghost use Rattle.std.specs.Prelude.{map};
ghost use Rattle.mapworld_calls.specs.Programs.{stop_of};
ghost use Rattle.mapworld_state.specs.Sound.{FitsCounter};
ghost use Rattle.mapworld.specs.Stops.{AllStopsFit, StopFits, StopsFit};

use mapworld_calls::{Ask, Walk};
use std::alloc::Allocator;

/// That of one walk.
fn walk_fits<D>(walk: &Walk<D>)
    ensures { FitsCounter (stop_of walk.now) }
{
    match walk {
        Walk::Iter(_, Some(stop)) | Walk::IterMut(_, Some(stop)) => {
            let _stop = *stop;
        }
        _ => {}
    }
}

/// That of a call, if it is a walk.
fn call_fits<K, V, D>(call: &Ask<K, V, D>)
    ensures { StopFits call.now }
{
    if let Ask::Walk(walk) = call {
        walk_fits(walk);
    }
}

/// Those of a program's walks.
fn program_fits<K, V, D>(program: &[Ask<K, V, D>])
    ensures { StopsFit program.now }
{
    for call in program {
        call_fits(call);
    }
}

/// Those of all programs' walks.
pub(crate) fn programs_fit<K, V, D, A: Allocator>(programs: &[Vec<Ask<K, V, D>, A>])
    ensures { AllStopsFit (map (λ program. program.items) programs.now) }
{
    for program in programs {
        program_fits(program);
    }
}
