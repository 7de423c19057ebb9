//! The codes and the names of the faults.

use mapworld::{NoMemory, RunFault, WorldNewFault};

#[test]
fn new_faults_have_codes_and_names(rt: HostRuntime) {
    let table = [
        (WorldNewFault::BadShards, 31, "BadShards"),
        (WorldNewFault::TooManyThreads, 11, "TooManyThreads"),
        (WorldNewFault::TooManyCalls, 51, "TooManyCalls"),
        (WorldNewFault::TooManyPairs, 52, "TooManyPairs"),
        (WorldNewFault::AsksWhileHolding, 53, "AsksWhileHolding"),
        (WorldNewFault::NoGuardNumbers, 54, "NoGuardNumbers"),
        (WorldNewFault::NoMemory, 99, "NoMemory"),
    ];
    for (fault, code, name) in table {
        let text = fault.to_string(rt.alloc()).expect(&rt, "memory");
        assert!(rt; fault.code() == code && text.as_str() == name, "of {name}");
    }
}

#[test]
fn run_faults_have_codes_names_and_steps(rt: HostRuntime) {
    let table = [
        (RunFault::NoSuchThread(7), 61, "NoSuchThread"),
        (RunFault::CannotMove(7), 62, "CannotMove"),
        (RunFault::StepsShort(7), 63, "StepsShort"),
    ];
    for (fault, code, name) in table {
        let text = fault.to_string(rt.alloc()).expect(&rt, "memory");
        let is_named = fault.code() == code && text.as_str() == name;
        assert!(rt; is_named && fault.done() == 7, "of {name}");
    }
    let text = NoMemory.to_string(rt.alloc()).expect(&rt, "memory");
    assert!(rt; NoMemory.code() == 99 && text.as_str() == "NoMemory");
}
