// The check of a conversion tree: every block under an address is visited, the visits are counted, and the first fault is refused.
// Carries over `resolve_all_dependencies_with_address` and its recursion in base.rs; the visit limit is added.
//
// The crate keeps a set of visited addresses and takes each out again when it is done with it: that is the path, at most 21 addresses.
// It is one for the whole walk: a block puts its address on it, and takes it off again.

#![tactic(auto)]

mod path;

ghost use Rattle.std.specs.Prelude.{◌≡◌, true, ◌+◌, ◌-◌, ◌≤◌, length, OnOk};
ghost use Rattle.common.specs.Header.{is_conversion};
ghost use Rattle.tree.specs.Walk.{classed, walk as walk_of, answer, checked};
ghost use Rattle.tree.specs.Path.{walked, Same};
ghost use Rattle.tree.specs.Follow.{Standing, Known, Led};

use blocks::Block;
use blocks::view::View;
use common::header::Header;
use common::refusal::Refusal;
use path::{LEVELS, Path};

// Where a reference leads.
#[derive(Clone, Copy)]
pub enum Link {
    Nowhere,
    Back,
    Nested,
}

// What a block's walk knows between two references: the visits begun so far, and the last reference that led to a nested block, with the visits
// that it cost. Before there is one, `last` is NIL, which costs none; it is no Option, since no reference that is
// asked for here is NIL, and one comparison tells.
#[derive(Clone, Copy)]
pub struct Tally {
    pub visits: u32,
    pub last: u64,
    pub cost: u32,
}

// The five steps of document 01 for a reference of the block that the path ends with. The path is asked last: each address on it is a ##CC
// block's, so a reference that leads to none cannot be on it. References to texts, which are the most, cost no search.
fn class(image: &[u8], path: &Path, r: u64) -> Link
    requires { Standing image.now (walked path.now) }
    ensures { result ≡ classed image.now (walked path.now) r }
{
    if r == 0 || !Header::is_inside(image, r) || !Header::is_conversion(image, r as usize) {
        return Link::Nowhere;
    }
    if path.contains(r) {
        Link::Back
    } else {
        Link::Nested
    }
}

// One reference of the block that the path ends with: the tally behind it. The same reference again meets the same visits: they are added and not
// walked, unless the limit ends among them, since then the refusal names the one it ends at.
#[cycle(follow_walk)]
fn follow(image: &[u8], r: u64, path: &mut Path, tally: Tally, limit: u32) -> Result<Tally, Refusal>
    requires in_limit { tally.visits ≤ limit }
    requires standing { Standing image.now (walked path.old) × Known (21 - path.old.depth) image.now (walked path.old) tally }
    ensures led { Led (21 - path.old.depth) image.now (walked path.old) r limit tally.visits result }
    ensures path_unchanged { OnOk result (Same path.old path.new) }
{
    match class(image, path, r) {
        Link::Nowhere => return Ok(tally),
        Link::Back => return Err(Refusal::Loop(r)),
        Link::Nested => {}
    }
    if r == tally.last && tally.cost <= limit - tally.visits {
        return Ok(Tally {
            visits: tally.visits + tally.cost,
            last: tally.last,
            cost: tally.cost,
        });
    }
    // A slice goes into a recursive call through memory. It is a copy that goes there, so that a reference that leads nowhere stores nothing.
    let bytes = image;
    let visits = walk(bytes, r, path, tally.visits, limit)?;
    Ok(Tally {
        visits,
        last: r,
        cost: visits - tally.visits,
    })
}

// The ##CC block at `at`, below the blocks on the path, after so many visits: 3, then 18, 4 and 5, then its references: the number of visits begun.
#[cycle(follow_walk)]
fn walk(image: &[u8], at: u64, path: &mut Path, visits: u32, limit: u32) -> Result<u32, Refusal>
    requires in_limit { visits ≤ limit }
    requires at_in_bounds { (at + 24 ≤ length image.now) × (is_conversion image.now at ≡ true) × Standing image.now (walked path.old) }
    ensures value { result ≡ answer limit visits (walk_of (21 - path.old.depth) image.now (walked path.old) at) }
    ensures path_unchanged { OnOk result (Same path.old path.new) }
{
    if visits == limit {
        return Err(Refusal::Limit(at));
    }
    let from = at as usize;
    if Block::has_few_links(image, from) {
        return Err(Refusal::FewLinks(at));
    }
    let Some(view) = View::look(image, from) else {
        return Err(Refusal::Short(at));
    };
    if path.depth == LEVELS {
        return Err(Refusal::Deep(at));
    }
    path.push(at);
    let refs = view.refs;
    let mut tally = Tally {
        visits: visits + 1,
        last: 0,
        cost: 0,
    };
    for i in 0..refs {
        let r = words::u64_at(image, from + 56 + 8 * (i as usize));
        tally = follow(image, r, path, tally, limit)?;
    }
    path.pop();
    Ok(tally.visits)
}

// The check of the tree at an address, with at most `limit` visits: the number of visits begun, or the first refusal.
pub fn check(image: &[u8], address: u64, limit: u32) -> Result<u32, Refusal>
    ensures { result ≡ checked image.now address limit }
{
    if Header::is_inside(image, address) {
        if Header::is_conversion(image, address as usize) {
            walk(image, address, &mut Path::new(), 0, limit)
        } else {
            Err(Refusal::NotConversion(address))
        }
    } else {
        Err(Refusal::Outside(address))
    }
}
