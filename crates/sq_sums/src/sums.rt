//! The sums of a draft: each part whose scopes do not depend on the iterations round it is gone through once for each
//! number of children that occurs at its nodes.

ghost use Rattle.std.specs.Prelude.{◌≡◌, ◌<◌, ◌≤◌, ◌^◌, ◌++◌, [], length, replicate, get_or, slice_get, Some, true};
ghost use Rattle.std.specs.Prelude.{false, IfOk, OnOk};
ghost use Rattle.sq_nests.specs.Needs.{IsCounted, AreSums};
ghost use Rattle.sq_sums.specs.Routes.{marks};
ghost use Rattle.sq_sums.specs.Regions.{region_of};
ghost use Rattle.sq_sums.specs.declared.sums.Table.{Table as TableValue};
ghost use Rattle.sq_sums.specs.Sums.{node_by, row_nodes, site_nodes, AreTables, table_at, raise_all, walk_at};
ghost use Rattle.sq_sums.specs.Sums.{body_worth, site_worth, sites_worth, worth_all, Raises, AreWorth};

use crate::marks::{Marks, marks_of};
use crate::region::region_of;
use crate::route::{Route, Site, route_of};
use crate::scale::{Scale, weight_of};
use crate::stand::{Stand, memory};
use crate::walk::{Ground, Sums, raise_to, walk};
use sq_ir::{Draft, PlanNode, PlanNodes, Term};
use sq_term_nums::Turns;
use sqlite_items::Items;
use std::alloc::{AllocError, Global};

/// The marks of a part at nodes with so many children.
#[derive(Drop)]
pub(crate) struct Table {
    pub(crate) fan: u32,
    pub(crate) marks: Marks,
}

// The place of the table of a number of children, or how many there are.
fn table_at(tables: &[Table], fan: u32) -> usize
    ensures { result ≡ table_at tables.now fan }
{
    for i in 0..tables.len() {
        if tables[i].fan == fan {
            return i;
        }
    }
    tables.len()
}

// The place of the table of a number of children, which is made where there is none yet.
fn table_for(
    alloc: Global,
    route: &Route<'_>,
    sites: usize,
    fan: u32,
    tables: &mut Vec<Table>,
) -> Result<usize, AllocError>
    requires { AreTables route.now sites tables.old.items }
    ensures tables { OnOk result (AreTables route.now sites tables.new.items) }
    ensures there { IfOk result (λ i. (t : Table) × (slice_get tables.new.items i ≡ Some t) ×
        (t.marks.items ≡ marks fan sites route.now)) }
{
    let i = table_at(tables.as_slice(), fan);
    if i == tables.len() {
        let marks = marks_of(alloc, route, sites, fan)?;
        tables.push(Table { fan, marks })?;
    }
    Ok(i)
}

// The row of a scope in a table.
fn row_at(tables: &[Table], i: usize, j: usize) -> &Items<bool>
    requires { (t : Table) × (slice_get tables.now i ≡ Some t) × (j < length t.marks.items) }
    ensures { (t : Table) → slice_get tables.now i ≡ Some t → result.now ≡ get_or t.marks.items j [] }
{
    &tables[i].marks[j]
}

// The node to which a way leads.
fn node_by(nodes: &[PlanNode], node: u64, way: u64) -> u64
    requires { way ≤ 2 ^ 32 }
    ensures { result ≡ node_by nodes.now node way }
{
    if way == 0 {
        node
    } else {
        u64::from(memory(nodes, node).first_child) + (way - 1)
    }
}

// Whether a way is marked.
#[tactic(auto, using(crate::proofs::Lists::past))]
fn is_marked(row: &Items<bool>, way: u64) -> bool
    ensures { result ≡ get_or row.now way false }
{
    let row = row.as_slice();
    let way = way as usize;
    if way < row.len() { row[way] } else { false }
}

// The nodes to which a row's marks lead from a node.
fn add_nodes(
    nodes: &[PlanNode],
    row: &Items<bool>,
    node: u64,
    list: &mut Items<u64>,
) -> Result<(), AllocError>
    ensures { OnOk result (list.new ≡ list.old ++ row_nodes nodes.now row.now node) }
{
    let ways = u64::from(memory(nodes, node).children) + 1;
    for way in 0..ways {
        if is_marked(row, way) {
            list.push(node_by(nodes, node, way))?;
        }
    }
    Ok(())
}

// The nodes at which the j-th scope of a part stands, where the part stands at these.
fn site_nodes(
    alloc: Global,
    nodes: &[PlanNode],
    route: &Route<'_>,
    sites: usize,
    j: usize,
    at: &[u64],
    tables: &mut Vec<Table>,
) -> Result<Items<u64>, AllocError>
    requires there { j < sites }
    requires tables { AreTables route.now sites tables.old.items }
    ensures tables { OnOk result (AreTables route.now sites tables.new.items) }
    ensures nodes { IfOk result (λ list. list ≡ site_nodes nodes.now route.now sites j at.now) }
{
    let mut list = Items::new(alloc);
    for node in at {
        let fan = memory(nodes, *node).children;
        let i = table_for(alloc, route, sites, fan, tables)?;
        add_nodes(nodes, row_at(tables.as_slice(), i, j), *node, &mut list)?;
    }
    Ok(list)
}

// So much is open at each of these nodes.
fn raise_all(nodes: &[u64], held: u64, sums: &mut Sums)
    ensures { sums.new ≡ raise_all nodes.now held sums.old }
{
    for node in nodes {
        raise_to(sums, *node, held);
    }
}

// Raises the sums by a part that stands at these nodes, iteration by iteration.
fn walk_at(on: &Ground<'_>, body: &Term, top: u64, at: &[u64], sums: &mut Sums)
    ensures { sums.new ≡ walk_at on.now body.now top at.now sums.old }
{
    let turns = Turns::Root;
    for node in at {
        let stand = Stand {
            turns: &turns,
            node: *node,
            held: top,
        };
        walk(on, &stand, body, sums);
    }
}

// Raises the sums by a scope that stands at these nodes.
#[cycle(raising)]
fn raise_site(
    alloc: Global,
    on: &Ground<'_>,
    site: &Site<'_>,
    at: &[u64],
    sums: &mut Sums,
) -> Result<(), AllocError>
    ensures { OnOk result (Raises (λ m. worth_all (site_worth on.now m site.now) at.now) sums.old sums.new) }
{
    raise_all(at, site.top(), sums);
    if site.is_own() {
        raise_body(alloc, on, site.body(), site.top(), at, sums)?;
    }
    Ok(())
}

// Raises the sums by what is in a scope in which so much is open.
#[cycle(raising)]
fn raise_body(
    alloc: Global,
    on: &Ground<'_>,
    body: &Term,
    top: u64,
    at: &[u64],
    sums: &mut Sums,
) -> Result<(), AllocError>
    ensures { OnOk result (Raises (λ m. worth_all (body_worth on.now m body.now top) at.now) sums.old sums.new) }
{
    if region_of(body).routed {
        raise_routed(alloc, on, body, top, at, sums)
    } else {
        walk_at(on, body, top, at, sums);
        Ok(())
    }
}

// The same by the ways to its scopes, once for each number of children.
#[cycle(raising)]
fn raise_routed(
    alloc: Global,
    on: &Ground<'_>,
    body: &Term,
    top: u64,
    at: &[u64],
    sums: &mut Sums,
) -> Result<(), AllocError>
    requires { (region_of body.now).routed ≡ true }
    ensures { OnOk result (Raises (λ m. worth_all (body_worth on.now m body.now top) at.now) sums.old sums.new) }
{
    let mut sites = Items::new(alloc);
    let route = route_of(alloc, &on.scale, body, top, &mut sites)?;
    raise_sites(alloc, on, &route, sites.as_slice(), at, sums)
}

// Raises the sums by each scope of a part that stands at these nodes.
#[cycle(raising)]
fn raise_sites(
    alloc: Global,
    on: &Ground<'_>,
    route: &Route<'_>,
    sites: &[Site<'_>],
    at: &[u64],
    sums: &mut Sums,
) -> Result<(), AllocError>
    ensures { OnOk result (Raises (λ m. sites_worth on.now m route.now sites.now at.now) sums.old sums.new) }
{
    let mut tables = Vec::new(alloc);
    for j in 0..sites.len() {
        let nodes = site_nodes(alloc, on.nodes, route, sites.len(), j, at, &mut tables)?;
        raise_site(alloc, on, &sites[j], nodes.as_slice(), sums)?;
    }
    Ok(())
}

// Raises the sums by a scope at the root.
fn raise_root(
    alloc: Global,
    on: &Ground<'_>,
    site: &Site<'_>,
    sums: &mut Sums,
) -> Result<(), AllocError>
    ensures { OnOk result (Raises (λ m. site_worth on.now m site.now 0) sums.old sums.new) }
{
    let root: [u64; 1] = [0];
    raise_site(alloc, on, site, &root, sums)
}

// So many zeros.
fn zeros(alloc: Global, count: usize) -> Result<Sums, AllocError>
    ensures { IfOk result (λ o. o ≡ replicate count 0) }
{
    let mut sums = Items::new(alloc);
    for _made in 0..count {
        sums.push(0)?;
    }
    Ok(sums)
}

// The sums of a draft by words.
fn sums_of(alloc: Global, d: &Draft, nodes: &[PlanNode], once: bool) -> Result<Sums, AllocError>
    ensures { IfOk result (λ sums. AreWorth d.now nodes.now once sums) }
{
    let mut sums = zeros(alloc, nodes.len())?;
    let on = Ground {
        nodes,
        scale: Scale {
            buffers: d.buffers.as_slice(),
            once,
        },
    };
    let top = weight_of(&on.scale, d.entry.as_slice());
    raise_root(alloc, &on, &Site::new(&d.term, top, true), &mut sums)?;
    Ok(sums)
}

/// One number for each node: the greatest sum of the sizes of buffers whose scopes stand within one another at it, and
/// 2^64 - 1 where the sum is greater. What it tells is asked of drafts whose numbers have their values.
pub fn nested_sums(alloc: Global, d: &Draft, nodes: &PlanNodes) -> Result<Sums, AllocError>
    ensures long { IfOk result (λ sums. length sums ≡ length nodes.now) }
    ensures sums { IfOk result (λ sums. IsCounted d.now nodes.now → AreSums d.now nodes.now false sums) }
{
    sums_of(alloc, d, nodes.as_slice(), false)
}

/// The same where of the buffers of one instance and one array that a scope names the first alone counts.
pub fn needs(alloc: Global, d: &Draft, nodes: &PlanNodes) -> Result<Sums, AllocError>
    ensures long { IfOk result (λ sums. length sums ≡ length nodes.now) }
    ensures sums { IfOk result (λ sums. IsCounted d.now nodes.now → AreSums d.now nodes.now true sums) }
{
    sums_of(alloc, d, nodes.as_slice(), true)
}
