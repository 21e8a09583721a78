// For each placement preference, which branch each node belongs to, and how many tasks each branch has. A node is
// spoken of by its place among the nodes.
ghost use Rattle.std.specs.Prelude.{◌≡◌, ◌<◌, ◌≤◌, ◌+◌, ◌-◌, ◌^◌, [], IfOk, get_or, length, replicate, slice_set, sum_by};
ghost use Rattle.swarm_objects.specs.Rows.{itself};
ghost use Rattle.swarm_spread.specs.Sums.{AreBranching, AreFirst, HasDepth, HasSums, IsBranching, IsDeep, IsFirst, branches_of, is_alike, order_from, value_at};

use std::alloc::Global;
use std::cmp::Ordering;
use swarm_objects::{List, Name, NoMemory, add};

#[derive(Drop)]
pub enum Levels {
    End,
    Level {
        // Of each node, by its place.
        branches: Vec<usize>,
        // Of each branch.
        sums: Vec<u64>,
        below: Box<Levels>,
    },
}

// The value of a place for a preference.
fn value_at(paths: &[List<Name>], place: usize, depth: usize) -> &str
    requires place { place < length paths.now }
    requires depth { depth < length (get_or paths.now place []) }
    ensures value { result.now ≡ value_at paths.now place depth }
    ensures fits { depth + 1 < 2 ^ 64 }
{
    paths[place].as_slice()[depth].as_str()
}

// Two places are of one branch of the level above, and have the same value.
fn is_alike(parents: &[usize], paths: &[List<Name>], depth: usize, one: usize, other: usize) -> bool
    requires parents { length parents.now ≡ length paths.now }
    requires one { one < length paths.now }
    requires other { other < length paths.now }
    requires deep { IsDeep depth paths.now }
    ensures { result ≡ is_alike parents.now paths.now depth one other }
{
    parents[one] == parents[other] && value_at(paths, other, depth) == value_at(paths, one, depth)
}

// The first of the places that are alike.
fn first_alike(parents: &[usize], paths: &[List<Name>], depth: usize, place: usize) -> usize
    requires parents { length parents.now ≡ length paths.now }
    requires place { place < length paths.now }
    requires deep { IsDeep depth paths.now }
    ensures { IsFirst parents.now paths.now depth place result }
{
    for other in 0..place {
        if is_alike(parents, paths, depth, other, place) {
            return other;
        }
    }
    place
}

// The branch of each place, below those of the level above.
fn branches(
    alloc: Global,
    parents: &[usize],
    paths: &[List<Name>],
    depth: usize,
) -> Result<Vec<usize>, NoMemory>
    requires parents { length parents.now ≡ length paths.now }
    requires deep { IsDeep depth paths.now }
    ensures count { IfOk result (λ branches. length branches.items ≡ length paths.now) }
    ensures first { IfOk result (λ branches. AreFirst parents.now paths.now depth (length paths.now) branches.items) }
{
    let mut branches = List::new(alloc);
    for place in 0..paths.len() {
        add(&mut branches, first_alike(parents, paths, depth, place))?;
    }
    Ok(branches.into_vec())
}

// No task of each of so many.
pub fn zeros(alloc: Global, count: usize) -> Result<Vec<u64>, NoMemory>
    ensures { IfOk result (λ sums. sums.items ≡ replicate count 0) }
{
    Ok(vec![in alloc; 0; count]?)
}

fn boxed(alloc: Global, levels: Levels) -> Result<Box<Levels>, NoMemory>
    ensures { IfOk result (λ held. held.value ≡ levels) }
{
    match Box::new(alloc, levels) {
        Ok(held) => Ok(held),
        Err(_) => Err(NoMemory),
    }
}

// The levels from this preference on, where no task is counted.
pub fn empty_levels(
    alloc: Global,
    parents: &[usize],
    paths: &[List<Name>],
    depth: usize,
    count: usize,
) -> Result<Levels, NoMemory>
    requires parents { length parents.now ≡ length paths.now }
    requires same { IsBranching depth paths.now parents.now }
    requires depth { depth ≤ count }
    requires deep { HasDepth count paths.now }
    ensures sums { IfOk result (λ levels. HasSums (replicate (length paths.now) 0) levels) }
    ensures same { IfOk result (λ levels. AreBranching (depth + 1) paths.now (branches_of levels)) }
    ensures count { IfOk result (λ levels. length (branches_of levels) + depth ≡ count) }
{
    if depth == count {
        return Ok(Levels::End);
    }
    let branches = branches(alloc, parents, paths, depth)?;
    let below = empty_levels(alloc, &branches, paths, depth + 1, count)?;
    Ok(Levels::Level {
        branches,
        sums: zeros(alloc, paths.len())?,
        below: boxed(alloc, below)?,
    })
}

impl Levels {
    // One task more at the place.
    pub fn raise(&mut self, here: &[u64], place: usize)
        requires sums { HasSums here.now self.old }
        requires within { place < length here.now }
        requires few { sum_by itself here.now < 2 ^ 60 }
        ensures sums { HasSums (slice_set here.now place (get_or here.now place 0 + 1)) self.new }
        ensures same { branches_of self.new ≡ branches_of self.old }
    {
        match self {
            Levels::End => {}
            Levels::Level {
                branches,
                sums,
                below,
            } => {
                let branch = branches[place];
                sums[branch] += 1;
                below.raise(here, place);
            }
        }
    }

    // One task fewer.
    pub fn lower(&mut self, here: &[u64], place: usize)
        requires sums { HasSums here.now self.old }
        requires within { place < length here.now }
        requires some { 0 < get_or here.now place 0 }
        ensures sums { HasSums (slice_set here.now place (get_or here.now place 0 - 1)) self.new }
        ensures same { branches_of self.new ≡ branches_of self.old }
    {
        match self {
            Levels::End => {}
            Levels::Level {
                branches,
                sums,
                below,
            } => {
                let branch = branches[place];
                sums[branch] -= 1;
                below.lower(here, place);
            }
        }
    }

    // Which of two places comes first by the preferences from this one on.
    pub fn order(
        &self,
        paths: &[List<Name>],
        here: &[u64],
        depth: usize,
        one: usize,
        other: usize,
    ) -> Ordering
        requires count { length here.now ≡ length paths.now }
        requires one { one < length paths.now }
        requires other { other < length paths.now }
        requires sums { HasSums here.now self.now }
        requires same { AreBranching (depth + 1) paths.now (branches_of self.now) }
        requires deep { HasDepth (length (branches_of self.now) + depth) paths.now }
        ensures { result ≡ order_from paths.now here.now depth (length (branches_of self.now)) one other }
    {
        match self {
            Levels::End => Ordering::Equal,
            Levels::Level {
                branches,
                sums,
                below,
            } => {
                let order = sums[branches[one]].cmp(&sums[branches[other]]);
                if order != Ordering::Equal {
                    return order;
                }
                let order = value_at(paths, one, depth).cmp(value_at(paths, other, depth));
                if order != Ordering::Equal {
                    return order;
                }
                below.order(paths, here, depth + 1, one, other)
            }
        }
    }
}
