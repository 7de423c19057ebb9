//! A plain map that takes the blocks of a world of maps one after another: a second way to say what replies and
//! contents must be, for the tests of worlds. It knows what may be asked and what is answered (`mapworld_calls`),
//! nothing of worlds, and promises nothing.
#![tactic(auto)]

pub mod judge;
pub mod placing;
pub mod plain;
pub mod replay;
pub mod said;
