//! Waiters are spread over more chains.
ghost use Rattle.std.specs.Prelude.{◌≡◌, ◌<◌, ◌≤◌, ◌++◌, [], OnOk, OnErr, List, length, map, vec_capacity};
ghost use Rattle.parking_lot_core_model.specs.Lists.{lists_of};
ghost use Rattle.parking_lot_core_model.specs.Chains.{entry_of, walk_from, entries, AreEmpty, AreLinked, MayBeLinked};
ghost use Rattle.parking_lot_core_model.specs.declared.chains.Node.{Node};

use crate::chains::{FREE, Head, NOBODY, Node, link, walk};
use crate::lists::Entry;
use crate::place::Waiter;
use std::alloc::{AllocError, Allocator};

/// Adds nodes until there are so many.
pub(crate) fn add_nodes<A: Allocator>(
    nodes: &mut Vec<Node, A>,
    count: usize,
) -> Result<(), AllocError>
    ensures more { (more : List Node) × (nodes.new.items ≡ nodes.old.items ++ more) }
    ensures ok { OnOk result (count ≤ length nodes.new.items) }
{
    let len = nodes.len();
    if len < count {
        nodes.reserve(count - len)?;
        for at in len..count {
            nodes.push_reserved(FREE);
        }
    }
    Ok(())
}

/// Adds empty chains until there are so many, where there is room.
fn add_chains<A: Allocator>(heads: &mut Vec<Head, A>, count: usize)
    requires empty { AreEmpty heads.old.items }
    requires room { count ≤ vec_capacity heads.old }
    ensures empty { AreEmpty heads.new.items }
    ensures more { length heads.old.items ≤ length heads.new.items }
    ensures count { count ≤ length heads.new.items }
{
    let len = heads.len();
    for at in len..count {
        heads.push_reserved(NOBODY);
    }
}

/// Writes down the entries of a chain, behind others.
fn gather_chain<A: Allocator>(
    nodes: &[Node],
    first: Option<usize>,
    order: &mut Vec<Entry<Waiter>, A>,
) -> Result<(), AllocError>
    ensures { OnOk result (order.new.items ≡ order.old.items ++ map entry_of (walk_from nodes.now first)) }
{
    for spot in walk(nodes, first) {
        order.push(Entry {
            key: spot.key,
            item: spot.waiter,
        })?;
    }
    Ok(())
}

/// Writes down the entries of all chains, behind others.
fn gather<A: Allocator>(
    heads: &[Head],
    nodes: &[Node],
    order: &mut Vec<Entry<Waiter>, A>,
) -> Result<(), AllocError>
    ensures { OnOk result (order.new.items ≡ order.old.items ++ entries nodes.now heads.now) }
{
    for head in heads {
        gather_chain(nodes, head.first, order)?;
    }
    Ok(())
}

/// Links the waiters that were written down, in their order, where all chains are empty.
fn link_all<A: Allocator>(
    heads: &mut Vec<Head, A>,
    nodes: &mut Vec<Node, A>,
    order: &[Entry<Waiter>],
)
    requires linked { AreLinked heads.old.items nodes.old.items }
    requires empty { entries nodes.old.items heads.old.items ≡ [] }
    requires order { MayBeLinked (length nodes.old.items) order.now }
    ensures linked { AreLinked heads.new.items nodes.new.items }
    ensures lists { lists_of (entries nodes.new.items heads.new.items) ≡ lists_of order.now }
    ensures total { length (entries nodes.new.items heads.new.items) ≡ length order.now }
    ensures room { length nodes.new.items ≡ length nodes.old.items }
    ensures chains { length heads.new.items ≡ length heads.old.items }
{
    for entry in order {
        link(heads, nodes, entry.key, entry.item);
    }
}

/// Spreads the waiters over so many chains. Each list stays as it is.
pub(crate) fn spread<A: Allocator>(
    heads: &mut Vec<Head, A>,
    nodes: &mut Vec<Node, A>,
    order: &mut Vec<Entry<Waiter>, A>,
    count: usize,
) -> Result<(), AllocError>
    requires linked { AreLinked heads.old.items nodes.old.items }
    requires more { length heads.old.items < count }
    ensures linked { AreLinked heads.new.items nodes.new.items }
    ensures lists { lists_of (entries nodes.new.items heads.new.items)
        ≡ lists_of (entries nodes.old.items heads.old.items) }
    ensures total { length (entries nodes.new.items heads.new.items)
        ≡ length (entries nodes.old.items heads.old.items) }
    ensures room { length nodes.new.items ≡ length nodes.old.items }
    ensures chains { OnOk result (count ≤ length heads.new.items) }
{
    heads.reserve(count - heads.len())?;
    order.clear();
    order.reserve(nodes.len())?;
    gather(heads, nodes, order)?;
    heads.clear();
    add_chains(heads, count);
    link_all(heads, nodes, order);
    order.clear();
    Ok(())
}
