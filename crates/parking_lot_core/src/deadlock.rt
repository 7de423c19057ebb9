//! Records of the resources that participants have. Nothing here looks for deadlocks.
ghost use Rattle.std.specs.Prelude.{◌≡◌, ◌++◌, ◌∷◌, ◌==◌, [], IfOk, IfErr, OnOk, OnErr, position};
ghost use Rattle.std.specs.List.{position_or_len};
ghost use Rattle.parking_lot_core_model.specs.Lists.{without_first};
ghost use Rattle.parking_lot_core_model.specs.declared.fault.LotFault.TheVariants.{NoMemory};

use crate::thread_data::ThreadData;
use parking_lot_core_model::LotFault;
use std::alloc::Allocator;

/// Records one more occurrence of a resource, or changes nothing where memory is refused.
///
/// ```text
/// deadlock::acquire_resource(&mut me, 3)?;
/// ```
pub fn acquire_resource<A: Allocator>(
    thread_data: &mut ThreadData<A>,
    key: usize,
) -> Result<(), LotFault>
    ensures ok { OnOk result
        (thread_data.new ≡ record thread_data.old { resources = thread_data.old.resources ++ key ∷ [] }) }
    ensures err { OnErr result (thread_data.new ≡ thread_data.old) }
    ensures fault { IfErr result (λ fault. fault ≡ NoMemory) }
{
    thread_data.resources.push(key)?;
    Ok(())
}

/// Forgets one occurrence of a resource, if there is one.
///
/// ```text
/// deadlock::release_resource(&mut me, 3);
/// ```
pub fn release_resource<A: Allocator>(thread_data: &mut ThreadData<A>, key: usize)
    ensures { thread_data.new ≡ record thread_data.old
        { resources = without_first (λ k. k == key) thread_data.old.resources } }
{
    let found = place_of(&thread_data.resources, key);
    if found < thread_data.resources.len() {
        thread_data.resources.remove(found);
    }
}

/// The recorded resources, each as often as it is recorded.
///
/// ```text
/// let mine = deadlock::resources(&me)?;   // the keys
/// ```
pub fn resources<A: Allocator + Clone>(
    thread_data: &ThreadData<A>,
) -> Result<Vec<usize, A>, LotFault>
    ensures ok { IfOk result (λ keys. keys.items ≡ thread_data.now.resources) }
    ensures fault { IfErr result (λ fault. fault ≡ NoMemory) }
{
    let alloc = thread_data.resources.allocator().clone()?;
    Ok(thread_data.resources.as_slice().to_vec(alloc)?)
}

/// Where a key stands first; the length where it doesn't.
fn place_of(keys: &[usize], key: usize) -> usize
    ensures { result ≡ position_or_len (λ k. k == key) keys.now }
{
    first_of(keys, key).unwrap_or(keys.len())
}

/// Where a key stands first.
fn first_of(keys: &[usize], key: usize) -> Option<usize>
    ensures { result ≡ position (λ k. k == key) keys.now }
{
    keys.iter().position(|k| *k == key)
}
